//! The records of an hour file: a letter for the kind, then a body of fixed length, numbers highest byte first.
ghost use Rattle.std.specs.Prelude.{◌≡◌, ◌<◌, length, MatchOption};
ghost use Rattle.hourbook.specs.Encoding.{Begins, encoded};
ghost use Rattle.hourbook.specs.Format.{Whole};
ghost use Rattle.hourbook.specs.Kinds.{header_in, kind_of, leg_in, owner_in};
ghost use Rattle.hourbook.specs.Lawful.{method_of};

use crate::hourfile::method::Method;

#[derive(Clone, Copy, Debug, PartialEq, Eq)]
pub(crate) struct Header {
    pub(crate) hour: u32,
    pub(crate) region: u8,
    // A number: what is no method is told by rule 4, after rules 1 to 3.
    pub(crate) method: u8,
}

impl Header {
    // None where the number is no method's.
    pub(crate) fn method(&self) -> Option<Method>
        ensures { result ≡ method_of self.now.method }
    {
        Method::try_from(self.method).ok()
    }
}

#[derive(Clone, Copy, Debug, PartialEq, Eq)]
pub(crate) struct ZoneRecord {
    pub(crate) price: i32,
    pub(crate) position: i32,
}

#[derive(Clone, Copy, Debug, PartialEq, Eq)]
pub(crate) struct BorderRecord {
    pub(crate) near: u8,
    pub(crate) far: u8,
    pub(crate) capacity: i32,
}

#[derive(Clone, Copy, Debug, PartialEq, Eq)]
pub(crate) struct LegRecord {
    pub(crate) line: u8,
    pub(crate) contribution: u16,
}

#[derive(Clone, Copy, Debug, PartialEq, Eq)]
pub(crate) struct FactorRecord {
    pub(crate) leg: u8,
    pub(crate) zone: u8,
    pub(crate) factor: i16,
}

#[derive(Clone, Copy, Debug, PartialEq, Eq)]
pub(crate) struct LossRecord {
    pub(crate) line: u8,
    pub(crate) loss: u16,
}

#[derive(Clone, Copy, Debug, PartialEq, Eq)]
pub(crate) struct OwnerRecord {
    pub(crate) leg: u8,
    pub(crate) owner: u8,
    pub(crate) key: u16,
}

#[derive(Clone, Copy, Debug, PartialEq, Eq)]
pub(crate) enum Record {
    Header(Header),
    Zone(ZoneRecord),
    Border(BorderRecord),
    Leg(LegRecord),
    Factor(FactorRecord),
    Loss(LossRecord),
    Owner(OwnerRecord),
    End,
}

#[derive(Clone, Copy, Debug, PartialEq, Eq)]
pub(crate) enum Kind {
    Header,
    Zone,
    Border,
    Leg,
    Factor,
    Loss,
    Owner,
    End,
}

impl Record {
    pub(crate) fn kind(&self) -> Kind
        ensures { result ≡ kind_of self.now }
    {
        match self {
            Record::Header(_) => Kind::Header,
            Record::Zone(_) => Kind::Zone,
            Record::Border(_) => Kind::Border,
            Record::Leg(_) => Kind::Leg,
            Record::Factor(_) => Kind::Factor,
            Record::Loss(_) => Kind::Loss,
            Record::Owner(_) => Kind::Owner,
            Record::End => Kind::End,
        }
    }

    pub(crate) fn header(self) -> Option<Header>
        ensures { result ≡ header_in self }
    {
        match self {
            Record::Header(header) => Some(header),
            _ => None,
        }
    }

    pub(crate) fn leg(self) -> Option<LegRecord>
        ensures { result ≡ leg_in self }
    {
        match self {
            Record::Leg(leg) => Some(leg),
            _ => None,
        }
    }

    pub(crate) fn owner(self) -> Option<OwnerRecord>
        ensures { result ≡ owner_in self }
    {
        match self {
            Record::Owner(owner) => Some(owner),
            _ => None,
        }
    }

    // In bytes, with the letter.
    pub(crate) fn size(&self) -> usize
        ensures value { result ≡ length (encoded self.now) }
        ensures some { 0 < result }
    {
        match self {
            Record::Header(_) | Record::Border(_) => 7,
            Record::Zone(_) => 9,
            Record::Leg(_) | Record::Loss(_) => 4,
            Record::Factor(_) | Record::Owner(_) => 5,
            Record::End => 1,
        }
    }
}

// The record that the bytes begin with; none where no whole record stands in front.
pub(crate) fn first_record(bytes: &[u8]) -> Option<Record>
    ensures { MatchOption result (Whole bytes.now → ⊥) (λ x. Begins bytes.now x) }
{
    match bytes {
        &[b'H', a, b, c, d, region, method, ..] => Some(Record::Header(Header {
            hour: u32::from_be_bytes([a, b, c, d]),
            region,
            method,
        })),
        &[b'Z', a, b, c, d, e, f, g, h, ..] => {
            let price = i32::from_be_bytes([a, b, c, d]);
            let position = i32::from_be_bytes([e, f, g, h]);
            Some(Record::Zone(ZoneRecord { price, position }))
        }
        &[b'B', near, far, a, b, c, d, ..] => Some(Record::Border(BorderRecord {
            near,
            far,
            capacity: i32::from_be_bytes([a, b, c, d]),
        })),
        &[b'L', line, a, b, ..] => Some(Record::Leg(LegRecord {
            line,
            contribution: u16::from_be_bytes([a, b]),
        })),
        &[b'P', leg, zone, a, b, ..] => {
            let factor = i16::from_be_bytes([a, b]);
            Some(Record::Factor(FactorRecord { leg, zone, factor }))
        }
        &[b'N', line, a, b, ..] => {
            let loss = u16::from_be_bytes([a, b]);
            Some(Record::Loss(LossRecord { line, loss }))
        }
        &[b'O', leg, owner, a, b, ..] => {
            let key = u16::from_be_bytes([a, b]);
            Some(Record::Owner(OwnerRecord { leg, owner, key }))
        }
        &[b'E', ..] => Some(Record::End),
        _ => None,
    }
}
