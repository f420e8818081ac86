// What a dtype is at its top: its kind, and whether its values may be null. The words are those of a dtype text.
#![tactic(auto)]

ghost use Rattle.std.specs.Prelude.{◌≡◌, ◌≢◌, MatchResult};
ghost use Rattle.kinds.specs.declared.PType.{PType};
ghost use Rattle.kinds.specs.Word.{ptype_number, ptype_word, ptypes, kind_word, kinds, mark_word, marks, ReadsWord};
ghost use Rattle.kinds.specs.Distinct.{ptype_word_lem, kind_word_lem, mark_word_lem};

mod word;

use thiserror::Error;
use word::from_word;
pub use word::{UnknownWord, Word};

// A number type, with the number under which files store it.
#[derive(Clone, Copy, Debug, PartialEq, Eq, Hash)]
pub enum PType {
    U8 = 0,
    U16 = 1,
    U32 = 2,
    U64 = 3,
    I8 = 4,
    I16 = 5,
    I32 = 6,
    I64 = 7,
    F16 = 8,
    F32 = 9,
    F64 = 10,
}

#[derive(Clone, Copy, Debug, PartialEq, Eq, Hash)]
pub enum Kind {
    Bool,
    Utf8,
    Binary,
    List,
    Struct,
    Primitive(PType),
}

// Whether there may be nulls among the values: the null mark.
#[derive(Clone, Copy, Debug, PartialEq, Eq, Hash)]
pub enum Nullability {
    NonNullable,
    Nullable,
}

// No number type has the number.
#[derive(Clone, Copy, Debug, PartialEq, Eq, Error)]
#[error("the number stands for no number type")]
pub struct UnknownNumber;

impl PType {
    // The number under which files store it.
    pub fn number(self) -> u32
        ensures { result ≡ ptype_number self }
    {
        self as u32
    }
}

impl From<PType> for u32 {
    ghost from_gives = { λ ptype number. number ≡ ptype_number ptype };

    fn from(ptype: PType) -> u32 {
        ptype.number()
    }
}

impl TryFrom<u32> for PType {
    type Error = UnknownNumber;

    ghost try_from_gives = { λ number r. MatchResult r (λ p. ptype_number p ≡ number) (λ _. (p : PType) → ptype_number p ≢ number) };

    // Each number stands beside its case, and the check proves that alone. A search of `all` by number would need a lemma with a line
    // for each case, which is no plainer.
    fn try_from(number: u32) -> Result<PType, UnknownNumber> {
        match number {
            0 => Ok(PType::U8),
            1 => Ok(PType::U16),
            2 => Ok(PType::U32),
            3 => Ok(PType::U64),
            4 => Ok(PType::I8),
            5 => Ok(PType::I16),
            6 => Ok(PType::I32),
            7 => Ok(PType::I64),
            8 => Ok(PType::F16),
            9 => Ok(PType::F32),
            10 => Ok(PType::F64),
            _ => Err(UnknownNumber),
        }
    }
}

impl Word for PType {
    ghost text = { ptype_word };

    ghost values = { ptypes };

    ghost distinct = { ptype_word_lem };

    fn all() -> &'static [PType] {
        &[
            PType::U8,
            PType::U16,
            PType::U32,
            PType::U64,
            PType::I8,
            PType::I16,
            PType::I32,
            PType::I64,
            PType::F16,
            PType::F32,
            PType::F64,
        ]
    }

    fn word(self) -> &'static str {
        match self {
            PType::U8 => "u8",
            PType::U16 => "u16",
            PType::U32 => "u32",
            PType::U64 => "u64",
            PType::I8 => "i8",
            PType::I16 => "i16",
            PType::I32 => "i32",
            PType::I64 => "i64",
            PType::F16 => "f16",
            PType::F32 => "f32",
            PType::F64 => "f64",
        }
    }
}

impl Kind {
    // Every kind there is.
    pub const ALL: [Kind; 16] = [
        Kind::Bool,
        Kind::Utf8,
        Kind::Binary,
        Kind::List,
        Kind::Struct,
        Kind::Primitive(PType::U8),
        Kind::Primitive(PType::U16),
        Kind::Primitive(PType::U32),
        Kind::Primitive(PType::U64),
        Kind::Primitive(PType::I8),
        Kind::Primitive(PType::I16),
        Kind::Primitive(PType::I32),
        Kind::Primitive(PType::I64),
        Kind::Primitive(PType::F16),
        Kind::Primitive(PType::F32),
        Kind::Primitive(PType::F64),
    ];
}

impl Word for Kind {
    ghost text = { kind_word };

    ghost values = { kinds };

    ghost distinct = { kind_word_lem };

    fn all() -> &'static [Kind] {
        &Kind::ALL
    }

    fn word(self) -> &'static str {
        match self {
            Kind::Bool => "bool",
            Kind::Utf8 => "utf8",
            Kind::Binary => "binary",
            Kind::List => "list",
            Kind::Struct => "struct",
            Kind::Primitive(ptype) => ptype.word(),
        }
    }
}

impl TryFrom<&[u8]> for Kind {
    type Error = UnknownWord;

    ghost try_from_gives = { λ word r. ReadsWord kind_word kinds word.now r };

    fn try_from(word: &[u8]) -> Result<Kind, UnknownWord> {
        from_word(word)
    }
}

impl Word for Nullability {
    ghost text = { mark_word };

    ghost values = { marks };

    ghost distinct = { mark_word_lem };

    fn all() -> &'static [Nullability] {
        &[Nullability::NonNullable, Nullability::Nullable]
    }

    fn word(self) -> &'static str {
        match self {
            Nullability::NonNullable => "req",
            Nullability::Nullable => "null",
        }
    }
}

// The body is that of `Kind`. One impl for every type with words is refused, since TryFrom is a trait of the library.
impl TryFrom<&[u8]> for Nullability {
    type Error = UnknownWord;

    ghost try_from_gives = { λ word r. ReadsWord mark_word marks word.now r };

    fn try_from(word: &[u8]) -> Result<Nullability, UnknownWord> {
        from_word(word)
    }
}
