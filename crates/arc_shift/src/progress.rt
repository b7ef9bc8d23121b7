//! What became of a shift.
ghost use Rattle.std.specs.Prelude.{◌≡◌};
ghost use Rattle.arc_plain.specs.Shifts.{is_active, status_at};

use arc_data::{Shift, Status};

/// What became of a shift: it was cancelled before its time was over, or is active until then.
pub fn status(shift: &Shift, now: u64) -> Status
    ensures { result ≡ status_at shift.now now }
{
    match shift.canceled {
        Some(at) if at < shift.expiry => Status::Canceled,
        _ if now >= shift.expiry => Status::Expired,
        _ => Status::Active,
    }
}

/// Whether a shift moves traffic away.
pub(crate) fn is_active(shift: &Shift, now: u64) -> bool
    ensures { result ≡ is_active (status_at shift.now now) }
{
    matches!(status(shift, now), Status::Active)
}
