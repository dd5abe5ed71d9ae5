//! What has a limit, and why reading stops.
ghost use Rattle.std.specs.Prelude.{◌≡◌};
ghost use Rattle.ec_syntax.specs.Grammar.State.{limit};

use ec_base::{
    MAX_BRANCHES, MAX_FUNCTIONS, MAX_MARKS, MAX_NAME, MAX_NESTING, MAX_PARAMETERS,
    MAX_PRINT_ARGUMENTS, MAX_STRING, MAX_STRUCTS, MAX_VARIABLES,
};

/// What has a limit.
#[derive(Clone, Copy, Debug, PartialEq, Eq)]
pub enum Quantity {
    /// How deep a token stands.
    Nesting,
    /// Operators and brackets of one simple statement, initialiser, condition or header part.
    Marks,
    /// Variables of a function, its parameters among them.
    Variables,
    Parameters,
    Functions,
    Structs,
    /// Values of one `printf`.
    Arguments,
    /// Branches of a parallel sequence.
    Branches,
    NameBytes,
    StringBytes,
}

impl Quantity {
    /// The most that there may be.
    pub fn limit(self) -> u32
        ensures { result ≡ limit self }
    {
        match self {
            Quantity::Nesting => MAX_NESTING,
            Quantity::Marks => MAX_MARKS,
            Quantity::Variables => MAX_VARIABLES,
            Quantity::Parameters => MAX_PARAMETERS,
            Quantity::Functions => MAX_FUNCTIONS,
            Quantity::Structs => MAX_STRUCTS,
            Quantity::Arguments => MAX_PRINT_ARGUMENTS,
            Quantity::Branches => MAX_BRANCHES,
            Quantity::NameBytes => MAX_NAME,
            Quantity::StringBytes => MAX_STRING,
        }
    }
}

/// Why reading stops at a token.
#[derive(Clone, Copy, Debug, PartialEq, Eq)]
pub enum Fault {
    /// No program goes on with the token.
    Expected,
    /// The token passes a limit.
    Passes(Quantity),
}
