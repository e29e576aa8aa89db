// What desks write on: a subject, and the paper that carries it.
use std::fmt;
use std::str::from_utf8;
use store::copy_front;

pub const SUBJECTS: [&str; 8] = [
    "CN=gate-1.example",
    "CN=gate-2.example",
    "CN=vault.example",
    "CN=lift-7.example",
    "CN=badge-printer.example",
    "CN=turnstile.example",
    "CN=door-12.example",
    "CN=camera-3.example",
];

// A subject's name, padded with blanks.
#[derive(Clone, Copy, PartialEq, Eq)]
pub struct Subject(pub [u8; Subject::LENGTH]);

// A subject, and behind it the serial, once there is one.
#[derive(Clone, Copy)]
pub struct Paper(pub [u8; Paper::LENGTH]);

impl Subject {
    pub const LENGTH: usize = 24;

    // The name without its blanks.
    fn name(&self) -> &str {
        from_utf8(&self.0).unwrap_or("not text").trim_end()
    }
}

impl Paper {
    pub const LENGTH: usize = 28;

    pub const BLANK: Paper = Paper([0; Paper::LENGTH]);
}

impl From<&str> for Subject {
    fn from(name: &str) -> Subject {
        let mut bytes = [b' '; Subject::LENGTH];
        copy_front(&mut bytes, name.as_bytes());
        Subject(bytes)
    }
}

impl From<&Paper> for Subject {
    fn from(paper: &Paper) -> Subject {
        let mut bytes = [0; Subject::LENGTH];
        copy_front(&mut bytes, &paper.0);
        Subject(bytes)
    }
}

impl fmt::Display for Subject {
    fn fmt<W: fmt::Write>(&self, f: &mut fmt::Formatter<W>) -> fmt::Result {
        f.write_str(self.name())
    }
}
