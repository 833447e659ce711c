//! A place in the tokens of a text, from which readers take one token at a time; and why nothing was read there.

ghost use Rattle.std.specs.Prelude.{◌≡◌, ◌∷◌, [], MatchOption};
ghost use Rattle.oss_grammar.specs.Reading.{begins, has, read_one};
ghost use Rattle.oss_expressions.specs.Singles.{single_of, single_unless};
ghost use Rattle.oss_expressions.specs.TokenValues.{access_at, begins_expression, end_at, fold_at, label_at, name_at, reduction_at, start_at, symbol_at, word_at};
ghost use Rattle.oss_expressions.specs.Told.{ReadsAs};
ghost use Rattle.oss_expressions.specs.declared.cursor.Unread.TheVariants.{Memory};

use crate::kinds::{
    Once, access, expression_begins, fold, is_end, is_start, label, named, once_is, reduction,
    symbol_is, word_is,
};
use oss_syntax::{Bytes, Mode, Name, Op, Token};
use std::alloc::{AllocError, Global};
use std::marker::Model;

/// Why nothing was read.
#[derive(Drop)]
pub enum Unread {
    /// At a token that fits nowhere, or at the end of the tokens.
    Syntax,
    /// At a token that passes a limit.
    Deep,
    /// For want of memory.
    Memory(AllocError),
}

impl From<AllocError> for Unread {
    ghost from_gives = { λ e unread. unread ≡ Memory e };

    fn from(e: AllocError) -> Unread {
        Unread::Memory(e)
    }
}

/// A name, and its line.
#[derive(Drop)]
pub struct Named {
    pub name: Name,
    pub line: u32,
}

/// A place in a list of tokens: contracts see the tokens that are left. A call that answers `Ok` has taken what
/// it read, and one that answers an error has taken nothing.
#[derive(Drop)]
pub struct Cursor<'t> {
    left: &'t [Token],
}

impl<'t> Model for Cursor<'t> {
    ghost use Rattle.std.specs.Prelude.{List};
    ghost use Rattle.oss_syntax.specs.declared.token.Token.{Token};

    ghost Value = { List Token };

    ghost view = { λ c. c.left.now };
}

impl<'t> Cursor<'t> {
    /// The place before the first of these tokens, where all are left.
    pub fn new(tokens: &'t [Token]) -> Cursor<'t>
        ensures { result ≡ tokens.now }
    {
        Cursor { left: tokens }
    }

    /// The tokens that are left.
    pub fn left(&self) -> &'t [Token]
        ensures { result.now ≡ self.now }
    {
        self.left
    }

    /// Goes to the place where these tokens are left.
    pub fn go_to(&mut self, left: &'t [Token])
        ensures { self.new ≡ left.now }
    {
        self.left = left;
    }

    /// The next token, and the place behind it; `None` at the end.
    pub fn split(&self) -> Option<(&'t Token, Cursor<'t>)>
        ensures { MatchOption result (self.now ≡ []) (λ p. self.now ≡ p.0.now ∷ p.1) }
    {
        let (token, left) = self.left.split_first()?;
        Some((token, Cursor { left }))
    }

    /// Takes this symbol, and answers its line.
    pub fn symbol(&mut self, symbol: &[u8]) -> Result<u32, Unread>
        ensures { ReadsAs (read_one (symbol_at symbol.now) self.old) result self.new }
    {
        let Some((token, rest)) = self.left.split_first() else {
            return Err(Unread::Syntax);
        };
        if !symbol_is(symbol, &token.what) {
            return Err(Unread::Syntax);
        }
        self.left = rest;
        Ok(token.line)
    }

    /// Takes the name with these bytes, and answers its line.
    pub fn word(&mut self, word: &[u8]) -> Result<u32, Unread>
        ensures { ReadsAs (read_one (word_at word.now) self.old) result self.new }
    {
        let Some((token, rest)) = self.left.split_first() else {
            return Err(Unread::Syntax);
        };
        if !word_is(word, &token.what) {
            return Err(Unread::Syntax);
        }
        self.left = rest;
        Ok(token.line)
    }

    /// Takes the first token of a pragma, and answers its line.
    pub fn pragma_start(&mut self) -> Result<u32, Unread>
        ensures { ReadsAs (read_one start_at self.old) result self.new }
    {
        let Some((token, rest)) = self.left.split_first() else {
            return Err(Unread::Syntax);
        };
        if !is_start(&token.what) {
            return Err(Unread::Syntax);
        }
        self.left = rest;
        Ok(token.line)
    }

    /// Takes the last token of a pragma, and answers its line.
    pub fn pragma_end(&mut self) -> Result<u32, Unread>
        ensures { ReadsAs (read_one end_at self.old) result self.new }
    {
        let Some((token, rest)) = self.left.split_first() else {
            return Err(Unread::Syntax);
        };
        if !is_end(&token.what) {
            return Err(Unread::Syntax);
        }
        self.left = rest;
        Ok(token.line)
    }

    /// Takes a name.
    pub fn name(&mut self, alloc: Global) -> Result<Named, Unread>
        ensures { ReadsAs (read_one name_at self.old) result self.new }
    {
        let Some((token, rest)) = self.left.split_first() else {
            return Err(Unread::Syntax);
        };
        let named = named(alloc, &token.what, token.line)?;
        self.left = rest;
        Ok(named)
    }

    /// Takes what a label is made of.
    pub fn label(&mut self, alloc: Global) -> Result<Bytes, Unread>
        ensures { ReadsAs (read_one label_at self.old) result self.new }
    {
        let Some((token, rest)) = self.left.split_first() else {
            return Err(Unread::Syntax);
        };
        let label = label(alloc, &token.what)?;
        self.left = rest;
        Ok(label)
    }

    /// Takes the word of a dependency.
    pub fn access(&mut self) -> Result<(Mode, bool, bool), Unread>
        ensures { ReadsAs (read_one access_at self.old) result self.new }
    {
        let Some((token, rest)) = self.left.split_first() else {
            return Err(Unread::Syntax);
        };
        let Some(access) = access(&token.what) else {
            return Err(Unread::Syntax);
        };
        self.left = rest;
        Ok(access)
    }

    /// Takes the word of a reduction, and answers whether it is strong.
    pub fn reduction(&mut self) -> Result<bool, Unread>
        ensures { ReadsAs (read_one reduction_at self.old) result self.new }
    {
        let Some((token, rest)) = self.left.split_first() else {
            return Err(Unread::Syntax);
        };
        let Some(strong) = reduction(&token.what) else {
            return Err(Unread::Syntax);
        };
        self.left = rest;
        Ok(strong)
    }

    /// Takes the operator of a reduction.
    pub fn fold(&mut self) -> Result<Op, Unread>
        ensures { ReadsAs (read_one fold_at self.old) result self.new }
    {
        let Some((token, rest)) = self.left.split_first() else {
            return Err(Unread::Syntax);
        };
        let Some(operator) = fold(&token.what) else {
            return Err(Unread::Syntax);
        };
        self.left = rest;
        Ok(operator)
    }

    /// Takes the word of a clause that stands once at most, where it does not stand already, and answers its line.
    pub fn once(&mut self, once: Once, already: bool) -> Result<u32, Unread>
        ensures { ReadsAs (read_one (single_unless already (single_of once)) self.old) result self.new }
    {
        let Some((token, rest)) = self.left.split_first() else {
            return Err(Unread::Syntax);
        };
        if already {
            return Err(Unread::Syntax);
        }
        if !once_is(once, &token.what) {
            return Err(Unread::Syntax);
        }
        self.left = rest;
        Ok(token.line)
    }

    /// Whether the next token is this symbol; it stays.
    pub fn begins_with_symbol(&self, symbol: &[u8]) -> bool
        ensures { result ≡ begins (has (symbol_at symbol.now)) self.now }
    {
        match self.left.first() {
            Some(token) => symbol_is(symbol, &token.what),
            None => false,
        }
    }

    /// Whether the next token is the name with these bytes; it stays.
    pub fn begins_with_word(&self, word: &[u8]) -> bool
        ensures { result ≡ begins (has (word_at word.now)) self.now }
    {
        match self.left.first() {
            Some(token) => word_is(word, &token.what),
            None => false,
        }
    }

    /// Whether the next token is the word of a dependency; it stays.
    pub fn begins_with_access(&self) -> bool
        ensures { result ≡ begins (has access_at) self.now }
    {
        match self.left.first() {
            Some(token) => access(&token.what).is_some(),
            None => false,
        }
    }

    /// Whether the next token is the word of a reduction; it stays.
    pub fn begins_with_reduction(&self) -> bool
        ensures { result ≡ begins (has reduction_at) self.now }
    {
        match self.left.first() {
            Some(token) => reduction(&token.what).is_some(),
            None => false,
        }
    }

    /// Whether the next token is the word of a clause that stands once at most, and does not stand already; it stays.
    pub fn begins_with_once(&self, once: Once, already: bool) -> bool
        ensures { result ≡ begins (has (single_unless already (single_of once))) self.now }
    {
        match self.left.first() {
            Some(token) => !already && once_is(once, &token.what),
            None => false,
        }
    }

    /// Whether an expression begins here.
    pub fn begins_with_expression(&self) -> bool
        ensures { result ≡ begins begins_expression self.now }
    {
        match self.left.first() {
            Some(token) => expression_begins(token),
            None => false,
        }
    }
}
