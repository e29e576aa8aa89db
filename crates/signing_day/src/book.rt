// What has been certified: a certificate for each serial that was given.
use crate::paper::{Paper, Subject};
use std::alloc::{AllocError, Global};
use std::{fmt, io};
use store::copy_front;

#[derive(Clone, Copy)]
pub struct Certificate {
    subject: Subject,
    serial: u32,
}

#[derive(Drop)]
pub struct Book {
    certificates: Vec<Certificate>,
}

impl From<Certificate> for Paper {
    fn from(certificate: Certificate) -> Paper {
        let mut bytes = [0; Paper::LENGTH];
        copy_front(&mut bytes, &certificate.subject.0);
        copy_front(
            &mut bytes[Subject::LENGTH..],
            &certificate.serial.to_be_bytes(),
        );
        Paper(bytes)
    }
}

impl fmt::Display for Certificate {
    fn fmt<W: fmt::Write>(&self, f: &mut fmt::Formatter<W>) -> fmt::Result {
        let subject = self.subject;
        let serial = self.serial;
        write!(f, "certificate {serial} for {subject}")
    }
}

impl Book {
    pub(crate) fn new(heap: Global) -> Book {
        Book {
            certificates: Vec::new(heap),
        }
    }

    // A certificate with the next serial, for a subject.
    pub(crate) fn enter(&mut self, subject: Subject) -> Result<Certificate, AllocError> {
        // A cast, since there is no From; the day has eight orders, and min keeps the sum in range.
        let serial = 1000 + self.certificates.len().min(1000) as u32;
        let certificate = Certificate { subject, serial };
        self.certificates.push(certificate)?;
        Ok(certificate)
    }

    fn serials_of(&self, subject: Subject) -> usize {
        self.certificates
            .iter()
            .filter(|certificate| certificate.subject == subject)
            .count()
    }

    // Every certificate, and how many have a subject with another serial.
    pub(crate) fn show(&self, rt: &HostRuntime) -> io::Result<()> {
        for certificate in self.certificates.iter() {
            println!(rt; "{certificate}")?;
        }
        let twice = self
            .certificates
            .iter()
            .filter(|certificate| self.serials_of(certificate.subject) > 1)
            .count();
        println!(rt; "certificates whose subject has another serial: {twice}")
    }
}
