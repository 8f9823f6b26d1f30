// The three rules that a file can name.
ghost use Rattle.std.specs.Prelude.{◌≡◌, Some};
ghost use Rattle.checkfile.specs.Layout.{kind_byte};
ghost use Rattle.checkfile.specs.Kinds.{Decodes, kind_name};

use std::fmt;

#[derive(Clone, Copy, PartialEq, Eq, Debug)]
pub enum Kind {
    Plain,
    Weight,
    Cost,
}

// A byte that stands for no kind.
#[derive(Clone, Copy, PartialEq, Eq, Debug)]
pub struct UnknownKind(pub u8);

impl TryFrom<u8> for Kind {
    type Error = UnknownKind;

    ghost try_from_gives = { Decodes };

    fn try_from(byte: u8) -> Result<Kind, UnknownKind> {
        match byte {
            1 => Ok(Kind::Plain),
            2 => Ok(Kind::Weight),
            3 => Ok(Kind::Cost),
            _ => Err(UnknownKind(byte)),
        }
    }
}

impl From<Kind> for u8 {
    ghost from_gives = { λ kind byte. byte ≡ kind_byte kind };

    fn from(kind: Kind) -> u8 {
        match kind {
            Kind::Plain => 1,
            Kind::Weight => 2,
            Kind::Cost => 3,
        }
    }
}

impl fmt::Display for Kind {
    ghost output = { λ kind. Some (kind_name kind) };

    fn fmt<W: fmt::Write>(&self, f: &mut fmt::Formatter<W>) -> fmt::Result {
        f.write_str(match self {
            Kind::Plain => "plain",
            Kind::Weight => "weight",
            Kind::Cost => "cost",
        })
    }
}
