// A window of bytes that were read and not yet used.
ghost use Rattle.std.specs.Prelude.{◌≡◌, ◌≤◌, length, true};
ghost use Rattle.window.specs.Refilled.{Filled, Refilled};

use std::io::Read;

// The bytes from one place up to another; whether the input ended after them; whether it could not be read.
#[derive(Clone, Copy)]
pub struct Window {
    pub from: usize,
    pub end: usize,
    pub ended: bool,
    pub failed: bool,
}

impl Window {
    // The bytes up to a place, after which the input ended or could not be read.
    fn last(end: usize, failed: bool) -> Window
        ensures { result ≡ record { from = 0; end = end; ended = true; failed = failed } }
    {
        Window {
            from: 0,
            end,
            ended: true,
            failed,
        }
    }
}

// Reads more after the first `have` bytes, until the buffer is full, the input ends or a read fails.
fn fill<R: Read>(input: &mut R, buffer: &mut [u8], have: usize) -> Window
    requires { have ≤ length buffer.old }
    ensures { Filled have result buffer.old buffer.new }
{
    let mut end = have;
    // A `while`: each read tells how far it came.
    while end < buffer.len() {
        match input.read(&mut buffer[end..]) {
            Ok(0) => return Window::last(end, false),
            Ok(more) => end += more,
            Err(_) => return Window::last(end, true),
        }
    }
    Window {
        from: 0,
        end,
        ended: false,
        failed: false,
    }
}

// A window with 2,307 bytes at least, or all that the input has: no field of a map file that is accepted has more.
pub fn refill<R: Read>(input: &mut R, buffer: &mut [u8], window: Window) -> Window
    ensures { Refilled window result buffer.old buffer.new }
{
    let Window { from, end, .. } = window;
    if end < from || buffer.len() < end {
        return Window::last(0, true);
    }
    if window.ended || sizes::WINDOW <= end - from {
        return window;
    }
    buffer.copy_within(from..end, 0);
    fill(input, buffer, end - from)
}
