//! The text of a shift, which is a UUID.
ghost use Rattle.std.specs.Prelude.{◌≡◌, ◌<◌, ◌^◌, IfOk, Some, string_bytes};
ghost use Rattle.std.specs.Result.{result_ok};
ghost use Rattle.arc_ids.specs.declared.named_id.ShiftId.{ShiftId};
ghost use Rattle.arc_ids.specs.ShiftTexts.{shift_text, shift_of_text};

use crate::{BadId, ShiftId};
use arc_bytes::Memory;
use std::alloc::{AllocError, Global};
use uuid::Uuid;

impl ShiftId {
    /// The text of the identifier, a UUID as `00000000-0000-0000-0000-000000000001`.
    #[tactic(auto, unfolding(crate::specs::ShiftTexts::shift_text))]
    pub fn text(self, alloc: Global) -> Result<String, Memory>
        ensures { IfOk result (λ text. string_bytes text ≡ shift_text self) }
    {
        let mut buffer = Uuid::encode_buffer();
        let uuid = Uuid::from_u64_pair(0, self.0);
        let text = uuid.hyphenated().encode_lower(&mut buffer);
        Ok(String::from_str(alloc, text)?)
    }

    /// The identifier with this text, in any form in which a UUID is written. `BadId` comes exactly for a text that is
    /// no UUID, or one whose upper 64 bits aren't 0.
    #[tactic(auto, unfolding(crate::specs::ShiftTexts::shift_of_text))]
    pub fn of_text(text: &str) -> Result<ShiftId, BadId>
        ensures { result_ok result ≡ shift_of_text text.now }
    {
        let Ok(uuid) = Uuid::parse_str(text) else {
            return Err(BadId);
        };
        let (upper, lower) = uuid.as_u64_pair();
        if upper == 0 {
            Ok(ShiftId(lower))
        } else {
            Err(BadId)
        }
    }
}

/// The text of a shift is read as that shift.
pub fn shifts_are_read_again()
    ensures { (shift : ShiftId) → shift.0 < 2 ^ 64 → shift_of_text (shift_text shift) ≡ Some shift }
{}
