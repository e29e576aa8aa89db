// Why a store refuses a call, and what the refusal tells: number, name, layer and place.
ghost use Rattle.std.specs.Prelude.{◌≡◌, Some};
ghost use Rattle.store.specs.Refusal.{number_of, name_of, layer_of, place_of, units_of, layer_text, refusal_text, printed};

use std::error::Error;
use std::fmt::{self, Display};

// The layer that refuses.
#[derive(Clone, Copy, Debug, PartialEq, Eq)]
pub enum Layer {
    Kernel,
    Mailbox,
    Store,
}

impl Layer {
    pub fn name(&self) -> &'static str
        ensures { result.now ≡ layer_text self.now }
    {
        match self {
            Self::Kernel => "kernel",
            Self::Mailbox => "mailbox",
            Self::Store => "store",
        }
    }
}

// The units that a message costs, and those that are free.
#[derive(Clone, Copy, Debug, PartialEq, Eq)]
pub struct Units {
    pub wanted: u32,
    pub free: u32,
}

// `message` is the number that the call named.
#[derive(Clone, Copy, Debug, PartialEq, Eq)]
pub enum StoreFault {
    BadLength { message: u32 },
    Held { message: u32 },
    NotHeld { message: u32 },
    StoreFull { message: u32, units: Units },
    Cramped { message: u32 },
}

// What a refusal tells: a row of the table of refusals, and the units with STORE_FULL alone.
#[derive(Clone, Copy, Debug, PartialEq, Eq)]
pub struct Particulars {
    pub number: u8,
    pub name: &'static str,
    pub layer: Layer,
    pub place: u32,
    pub units: Option<Units>,
}

impl StoreFault {
    // The table of a store's refusals.
    pub fn particulars(&self) -> Particulars
        ensures number { result.number ≡ number_of self.now }
        ensures name { result.name.now ≡ name_of self.now }
        ensures layer { result.layer ≡ layer_of self.now }
        ensures place { result.place ≡ place_of self.now }
        ensures units { result.units ≡ units_of self.now }
    {
        let (number, name, message, units) = match *self {
            StoreFault::BadLength { message } => (17, "BAD_LENGTH", message, None),
            StoreFault::Held { message } => (18, "HELD", message, None),
            StoreFault::NotHeld { message } => (19, "NOT_HELD", message, None),
            StoreFault::StoreFull { message, units } => (20, "STORE_FULL", message, Some(units)),
            StoreFault::Cramped { message } => (21, "CRAMPED", message, None),
        };
        Particulars {
            number,
            name,
            layer: Layer::Store,
            place: message,
            units,
        }
    }

    // The columns by their names, on both types alike: a method of a trait would ask callers to import it.
    pub fn number(&self) -> u8
        ensures { result ≡ number_of self.now }
    {
        self.particulars().number
    }

    pub fn name(&self) -> &'static str
        ensures { result.now ≡ name_of self.now }
    {
        self.particulars().name
    }

    pub fn layer(&self) -> Layer
        ensures { result ≡ layer_of self.now }
    {
        self.particulars().layer
    }

    // The message number.
    pub fn place(&self) -> u32
        ensures { result ≡ place_of self.now }
    {
        self.particulars().place
    }

    // The units wanted and free, which STORE_FULL alone tells.
    pub fn units(&self) -> Option<Units>
        ensures { result ≡ units_of self.now }
    {
        self.particulars().units
    }
}

impl fmt::Display for Layer {
    ghost output = { λ l. Some (layer_text l) };

    fn fmt<W: fmt::Write>(&self, f: &mut fmt::Formatter<W>) -> fmt::Result {
        f.write_str(self.name())
    }
}

// Always inlined: where the caller's formatter isn't known, each piece costs some three times as much.
impl fmt::Display for Particulars {
    ghost output = { λ p. Some (refusal_text p.number p.name.now p.layer p.place p.units) };

    #[inline(always)]
    fn fmt<W: fmt::Write>(&self, f: &mut fmt::Formatter<W>) -> fmt::Result {
        let Particulars {
            number,
            name,
            layer,
            place,
            units,
        } = *self;
        write!(f, "refused {number} {name} layer={layer} place={place}")?;
        match units {
            Some(Units { wanted, free }) => write!(f, " wanted={wanted} free={free}"),
            None => Ok(()),
        }
    }
}

impl fmt::Display for StoreFault {
    ghost output = { λ x. Some (printed x) };

    fn fmt<W: fmt::Write>(&self, f: &mut fmt::Formatter<W>) -> fmt::Result {
        self.particulars().fmt(f)
    }
}

impl Error for StoreFault {}
