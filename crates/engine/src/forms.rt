// The forms of an answer.
ghost use Rattle.std.specs.Prelude.{◌≡◌, Some, None};
ghost use Rattle.art.specs.Rules.{bringing, naming, plain};

use art::{Answer, Status};

// A status alone. No From<Status>: that would hide at a call that nothing else is answered.
pub fn plainly(status: Status) -> Answer
    ensures { result ≡ plain status }
{
    Answer {
        status,
        message: None,
        length: None,
        displaced: None,
    }
}

// With the message that a sender waited with.
pub fn about(status: Status, message: u32) -> Answer
    ensures { result ≡ naming status message }
{
    Answer {
        message: Some(message),
        ..plainly(status)
    }
}

// The answer of a send.
pub fn sent(status: Status, message: u32, displaced: Option<u32>) -> Answer
    ensures { result ≡ record { status = status; message = Some message; length = None; displaced = displaced } }
{
    Answer {
        displaced,
        ..about(status, message)
    }
}

// The answer of a receive or a collect that brings a message.
pub fn brought(message: u32, length: usize) -> Answer
    ensures { result ≡ bringing message length }
{
    Answer {
        length: Some(length),
        ..about(Status::Ok, message)
    }
}
