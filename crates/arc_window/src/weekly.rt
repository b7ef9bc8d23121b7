//! Weekly windows, as `Sun:23:30-Mon:00:30`.
ghost use Rattle.std.specs.Prelude.{◌≡◌, ◌↔◌, Ok};
ghost use Rattle.arc_window.specs.declared.weekly.Window.{Window};
ghost use Rattle.arc_window.specs.Weekly.{NamesWindow, day_read, minute_read, number_read, window_read};

/// A window of the week, from one minute up to but not including another. Minutes are counted from Monday 00:00, which
/// is 0, and are below 10,080. Where `to` is the smaller, the window goes on behind the end of Sunday.
#[derive(Clone, Copy, Debug, PartialEq, Eq)]
pub struct Window {
    pub from: u16,
    pub to: u16,
}

/// The text isn't two different minutes of the week in the form `Ddd:HH:MM-Ddd:HH:MM`.
#[derive(Clone, Copy, Debug, PartialEq, Eq)]
pub struct BadWindow;

/// The window that a text names, with days from `Mon` to `Sun`, hours from 00 to 23 and minutes from 00 to 59.
pub fn read_window(text: &str) -> Result<Window, BadWindow>
    ensures { (window : Window) → (result ≡ Ok window) ↔ NamesWindow text.now window }
{
    window_of(text.as_bytes()).ok_or(BadWindow)
}

/// The window of nineteen bytes.
#[tactic(auto, unfolding(crate::specs::Weekly::window_read))]
fn window_of(text: &[u8]) -> Option<Window>
    ensures { result ≡ window_read text.now }
{
    if text.len() != 19 || text[9] != b'-' {
        return None;
    }
    let from = minute_of(&text[..9])?;
    let to = minute_of(&text[10..])?;
    if from == to {
        None
    } else {
        Some(Window { from, to })
    }
}

/// The minute of the week of nine bytes, as `Mon:00:30`.
#[tactic(auto, unfolding(crate::specs::Weekly::minute_read))]
fn minute_of(text: &[u8]) -> Option<u16>
    ensures { result ≡ minute_read text.now }
{
    if text.len() != 9 || text[3] != b':' || text[6] != b':' {
        return None;
    }
    let day = day_of(&text[..3])?;
    let hour = number_of(text[4], text[5])?;
    let minute = number_of(text[7], text[8])?;
    if hour < 24 && minute < 60 {
        Some(day * 1440 + hour * 60 + minute)
    } else {
        None
    }
}

/// The day of the week of this name, counted from Monday, which is 0.
fn day_of(name: &[u8]) -> Option<u16>
    ensures { result ≡ day_read name.now }
{
    match name {
        b"Mon" => Some(0),
        b"Tue" => Some(1),
        b"Wed" => Some(2),
        b"Thu" => Some(3),
        b"Fri" => Some(4),
        b"Sat" => Some(5),
        b"Sun" => Some(6),
        _ => None,
    }
}

/// The number that two digits make.
fn number_of(tens: u8, ones: u8) -> Option<u16>
    ensures { result ≡ number_read tens ones }
{
    if tens.is_ascii_digit() && ones.is_ascii_digit() {
        Some(u16::from(tens - b'0') * 10 + u16::from(ones - b'0'))
    } else {
        None
    }
}
