//! Tokens that are read.
ghost use Rattle.std.specs.Prelude.{◌≡◌, ◌≤◌, ◌<◌, length, OnOk};
ghost use Rattle.ec_syntax.specs.Grammar.Expressions.{of_mark, prefix_of, at_level};
ghost use Rattle.ec_syntax.specs.Descent.Tokens.{mark, word, sign, operator, number, name, string, variable_name, parameter_name, function_name};
ghost use Rattle.ec_syntax.specs.Descent.Expressions.{factor};
ghost use Rattle.ec_syntax.specs.Descent.Items.{struct_brace, end};
ghost use Rattle.ec_reader.specs.Answers.{Told, ToldBy, FoundName};
ghost use Rattle.ec_reader.specs.Operators.{makes, prefixes, of_factor};

use crate::cursor::Cursor;
use crate::operators::{Infix, Prefix};
use crate::{kinds, operators};
use ec_base::{Fail, MAX_NAME, MAX_PARAMETERS, MAX_STRING, Mark, Span, Text, TokenKind};
use ec_syntax::{Fault, Name, Quantity};
use std::alloc::Global;

impl<'a> Cursor<'a> {
    /// Reads this mark.
    pub(crate) fn mark(&mut self, kind: Mark) -> Result<(), Fail<Fault>>
        ensures answer { Told (mark kind self.old) result self.new }
        ensures takes { OnOk result (length self.new.left < length self.old.left) }
        ensures few { OnOk result (length self.old.left ≤ 1048577) }
        ensures stays { length self.new.left ≤ length self.old.left }
    {
        if self.is_mark(kind) {
            self.step();
            Ok(())
        } else {
            Err(Fail::Refused(Fault::Expected))
        }
    }

    /// Reads this word.
    pub(crate) fn word(&mut self, text: &[u8]) -> Result<(), Fail<Fault>>
        ensures answer { Told (word text.now self.old) result self.new }
        ensures takes { OnOk result (length self.new.left < length self.old.left) }
        ensures stays { length self.new.left ≤ length self.old.left }
    {
        if self.is_word(text) {
            self.step();
            Ok(())
        } else {
            Err(Fail::Refused(Fault::Expected))
        }
    }

    /// Reads this operator or bracket of a part.
    pub(crate) fn sign(&mut self, kind: Mark) -> Result<(), Fail<Fault>>
        ensures answer { Told (sign kind self.old) result self.new }
        ensures takes { OnOk result (length self.new.left < length self.old.left) }
        ensures few { OnOk result (length self.old.left ≤ 1048577) }
        ensures stays { length self.new.left ≤ length self.old.left }
    {
        if !self.is_mark(kind) {
            return Err(Fail::Refused(Fault::Expected));
        }
        self.count_mark().map_err(Fail::Refused)?;
        self.step();
        Ok(())
    }

    /// Reads an operator before an operand.
    pub(crate) fn prefix(&mut self) -> Result<Prefix, Fail<Fault>>
        ensures answer { ToldBy prefixes (operator (of_mark prefix_of) self.old) result self.new }
        ensures takes { OnOk result (length self.new.left < length self.old.left) }
        ensures stays { length self.new.left ≤ length self.old.left }
    {
        let Some(token) = self.first() else {
            return Err(Fail::Refused(Fault::Expected));
        };
        let Some(prefix) = operators::prefix_at(token) else {
            return Err(Fail::Refused(Fault::Expected));
        };
        self.count_mark().map_err(Fail::Refused)?;
        self.step();
        Ok(prefix)
    }

    /// Reads an operator of this level.
    pub(crate) fn infix(&mut self, level: u32) -> Result<Infix, Fail<Fault>>
        ensures answer { ToldBy makes (operator (of_mark (at_level level)) self.old) result self.new }
        ensures takes { OnOk result (length self.new.left < length self.old.left) }
        ensures stays { length self.new.left ≤ length self.old.left }
    {
        let Some(token) = self.first() else {
            return Err(Fail::Refused(Fault::Expected));
        };
        let Some(infix) = operators::infix_at(token, level) else {
            return Err(Fail::Refused(Fault::Expected));
        };
        self.count_mark().map_err(Fail::Refused)?;
        self.step();
        Ok(infix)
    }

    /// Reads an operator between factors, and says whether it is `*`.
    pub(crate) fn factor(&mut self) -> Result<(bool, Infix), Fail<Fault>>
        ensures answer { ToldBy of_factor (operator factor self.old) result self.new }
        ensures takes { OnOk result (length self.new.left < length self.old.left) }
        ensures stays { length self.new.left ≤ length self.old.left }
    {
        let Some(token) = self.first() else {
            return Err(Fail::Refused(Fault::Expected));
        };
        let star = kinds::is_mark(token, Mark::Star);
        let Some(infix) = operators::infix_at(token, 0) else {
            return Err(Fail::Refused(Fault::Expected));
        };
        self.count_mark().map_err(Fail::Refused)?;
        self.step();
        Ok((star, infix))
    }

    /// Reads a number.
    pub(crate) fn number(&mut self) -> Result<i64, Fail<Fault>>
        ensures answer { Told (number self.old) result self.new }
        ensures takes { OnOk result (length self.new.left < length self.old.left) }
        ensures stays { length self.new.left ≤ length self.old.left }
    {
        let Some(token) = self.first() else {
            return Err(Fail::Refused(Fault::Expected));
        };
        let Some(number) = kinds::number_of(token) else {
            return Err(Fail::Refused(Fault::Expected));
        };
        self.step();
        Ok(number)
    }

    /// Reads a string.
    pub(crate) fn string(&mut self, alloc: Global) -> Result<Text, Fail<Fault>>
        ensures answer { Told (string self.old) result self.new }
        ensures takes { OnOk result (length self.new.left < length self.old.left) }
        ensures stays { length self.new.left ≤ length self.old.left }
    {
        let Some(token) = self.first() else {
            return Err(Fail::Refused(Fault::Expected));
        };
        let Some(text) = kinds::string_of(token) else {
            return Err(Fail::Refused(Fault::Expected));
        };
        if text.len() > MAX_STRING as usize {
            return Err(Fail::Refused(Fault::Passes(Quantity::StringBytes)));
        }
        let text = text.copy(alloc)?;
        self.step();
        Ok(text)
    }

    /// The name that is next.
    fn next_name(&self, alloc: Global) -> Result<Name, Fail<Fault>>
        ensures { FoundName self.now.left result }
    {
        let Some(token) = self.first() else {
            return Err(Fail::Refused(Fault::Expected));
        };
        let Some(text) = kinds::name_of(token) else {
            return Err(Fail::Refused(Fault::Expected));
        };
        let text = text.copy(alloc)?;
        Ok(Name { text, at: token.at })
    }

    /// Reads a name.
    pub(crate) fn name(&mut self, alloc: Global) -> Result<Name, Fail<Fault>>
        ensures answer { Told (name self.old) result self.new }
        ensures takes { OnOk result (length self.new.left < length self.old.left) }
        ensures stays { length self.new.left ≤ length self.old.left }
    {
        let name = self.next_name(alloc)?;
        if name.text.len() > MAX_NAME as usize {
            return Err(Fail::Refused(Fault::Passes(Quantity::NameBytes)));
        }
        self.step();
        Ok(name)
    }

    /// Reads the name of a variable that is declared.
    pub(crate) fn variable_name(&mut self, alloc: Global) -> Result<Name, Fail<Fault>>
        ensures answer { Told (variable_name self.old) result self.new }
        ensures takes { OnOk result (length self.new.left < length self.old.left) }
        ensures stays { length self.new.left ≤ length self.old.left }
    {
        let name = self.next_name(alloc)?;
        self.count_variable().map_err(Fail::Refused)?;
        if name.text.len() > MAX_NAME as usize {
            return Err(Fail::Refused(Fault::Passes(Quantity::NameBytes)));
        }
        self.step();
        Ok(name)
    }

    /// Reads the name of a parameter, behind so many parameters.
    pub(crate) fn parameter_name(
        &mut self,
        alloc: Global,
        before: usize,
    ) -> Result<Name, Fail<Fault>>
        ensures answer { Told (parameter_name before self.old) result self.new }
        ensures takes { OnOk result (length self.new.left < length self.old.left) }
        ensures stays { length self.new.left ≤ length self.old.left }
    {
        let name = self.next_name(alloc)?;
        if before >= MAX_PARAMETERS as usize {
            return Err(Fail::Refused(Fault::Passes(Quantity::Parameters)));
        }
        self.count_variable().map_err(Fail::Refused)?;
        if name.text.len() > MAX_NAME as usize {
            return Err(Fail::Refused(Fault::Passes(Quantity::NameBytes)));
        }
        self.step();
        Ok(name)
    }

    /// Reads the name of a function that is defined.
    pub(crate) fn function_name(&mut self, alloc: Global) -> Result<Name, Fail<Fault>>
        ensures answer { Told (function_name self.old) result self.new }
        ensures takes { OnOk result (length self.new.left < length self.old.left) }
        ensures stays { length self.new.left ≤ length self.old.left }
    {
        let name = self.next_name(alloc)?;
        self.count_function().map_err(Fail::Refused)?;
        if name.text.len() > MAX_NAME as usize {
            return Err(Fail::Refused(Fault::Passes(Quantity::NameBytes)));
        }
        self.step();
        Ok(name)
    }

    /// Reads the brace that opens a struct.
    pub(crate) fn struct_brace(&mut self) -> Result<(), Fail<Fault>>
        ensures answer { Told (struct_brace self.old) result self.new }
        ensures takes { OnOk result (length self.new.left < length self.old.left) }
        ensures stays { length self.new.left ≤ length self.old.left }
    {
        if !self.is_mark(Mark::OpenBrace) {
            return Err(Fail::Refused(Fault::Expected));
        }
        self.count_struct().map_err(Fail::Refused)?;
        self.step();
        Ok(())
    }

    /// Reads the end of the program, and gives its place.
    pub(crate) fn end(&mut self) -> Result<Span, Fail<Fault>>
        ensures answer { Told (end self.old) result self.new }
        ensures takes { OnOk result (length self.new.left < length self.old.left) }
        ensures stays { length self.new.left ≤ length self.old.left }
    {
        let Some(token) = self.first() else {
            return Err(Fail::Refused(Fault::Expected));
        };
        let TokenKind::End = &token.kind else {
            return Err(Fail::Refused(Fault::Expected));
        };
        let at = token.at;
        self.step();
        Ok(at)
    }
}
