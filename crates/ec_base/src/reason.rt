//! Why sources are refused.
//! `specs/Reason.antt` has the numbers and the names.
ghost use Rattle.std.specs.Prelude.{◌≡◌, Some};
ghost use Rattle.ec_base.specs.Reason.{name_of, number_of, reason_of};

/// Why a source is refused, with the number that the reason has in refusals.
#[derive(Clone, Copy)]
pub enum Reason {
    /// A byte begins no token, or may not stand in a string.
    BadByte = 1,
    /// What begins with a digit is no decimal up to 2^63 - 1, or has needless zeros.
    BadNumber = 2,
    /// A comment isn't closed.
    OpenComment = 3,
    /// A string isn't closed on its line.
    OpenString = 4,
    /// A backslash in a string is followed by none of `n`, `t`, `\` and `"`.
    BadEscape = 5,
    /// A line whose first byte that is no blank is `#` does not go on as `#include <`.
    HashLine = 6,
    /// The source has too many bytes.
    TooLong = 7,
    /// The source is a program, of a form that isn't built yet.
    NotYet = 9,
    /// No program goes on with a token.
    Expected = 10,
    /// A token stands too deep.
    TooDeep = 11,
    /// A token passes another limit.
    TooMany = 12,
    /// A name isn't declared, or not in scope.
    Unknown = 20,
    /// A name is declared again.
    Twice = 21,
    /// Types don't go together.
    Mismatch = 22,
    /// A plain pointer stands where a local one is asked.
    NotLocal = 23,
    /// A shared name stands where none may.
    SharedEscapes = 24,
    /// `return` stands in a branch or in the body of a `forall`.
    ReturnInside = 25,
    /// A branch or the body of a `forall` prints.
    PrintInside = 26,
    /// There is no function `main` from ints to an int.
    NoMain = 27,
    /// A struct has too many cells, or an array of a length that isn't allowed.
    StructTooBig = 28,
    /// The header of a `forall` hasn't one variable, or holds a call or `malloc`.
    HeaderForm = 29,
}

impl Reason {
    /// Its number in refusals.
    pub fn number(self) -> u8
        ensures number { result ≡ number_of self }
        ensures read_back { reason_of result ≡ Some self }
    {
        self as u8
    }

    /// Its name in the line of a refusal.
    pub fn name(self) -> &'static [u8]
        ensures { result.now ≡ name_of self }
    {
        match self {
            Reason::BadByte => b"BadByte",
            Reason::BadNumber => b"BadNumber",
            Reason::OpenComment => b"OpenComment",
            Reason::OpenString => b"OpenString",
            Reason::BadEscape => b"BadEscape",
            Reason::HashLine => b"HashLine",
            Reason::TooLong => b"TooLong",
            Reason::NotYet => b"NotYet",
            Reason::Expected => b"Expected",
            Reason::TooDeep => b"TooDeep",
            Reason::TooMany => b"TooMany",
            Reason::Unknown => b"Unknown",
            Reason::Twice => b"Twice",
            Reason::Mismatch => b"Mismatch",
            Reason::NotLocal => b"NotLocal",
            Reason::SharedEscapes => b"SharedEscapes",
            Reason::ReturnInside => b"ReturnInside",
            Reason::PrintInside => b"PrintInside",
            Reason::NoMain => b"NoMain",
            Reason::StructTooBig => b"StructTooBig",
            Reason::HeaderForm => b"HeaderForm",
        }
    }

    /// The reason with this number, if there is one.
    pub fn numbered(number: u8) -> Option<Reason>
        ensures { result ≡ reason_of number }
    {
        match number {
            1 => Some(Reason::BadByte),
            2 => Some(Reason::BadNumber),
            3 => Some(Reason::OpenComment),
            4 => Some(Reason::OpenString),
            5 => Some(Reason::BadEscape),
            6 => Some(Reason::HashLine),
            7 => Some(Reason::TooLong),
            9 => Some(Reason::NotYet),
            10 => Some(Reason::Expected),
            11 => Some(Reason::TooDeep),
            12 => Some(Reason::TooMany),
            20 => Some(Reason::Unknown),
            21 => Some(Reason::Twice),
            22 => Some(Reason::Mismatch),
            23 => Some(Reason::NotLocal),
            24 => Some(Reason::SharedEscapes),
            25 => Some(Reason::ReturnInside),
            26 => Some(Reason::PrintInside),
            27 => Some(Reason::NoMain),
            28 => Some(Reason::StructTooBig),
            29 => Some(Reason::HeaderForm),
            _ => None,
        }
    }
}
