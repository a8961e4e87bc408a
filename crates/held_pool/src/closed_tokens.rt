ghost use Rattle.std.specs.Prelude.{◌≡◌, ◌⊎◌, [], true, false, IfNone, IfOk, IfSome};
ghost use Rattle.held_pool.specs.TokenNumbers.{IsNext};

use crate::token::Token;
use crate::token_node::{Link, Node, clear, pop};
use std::alloc::{AllocError, Global};
use std::cell::Cell;
use std::marker::Model;
use std::rc::Rc;

/// The tokens of a list that were dropped, until each is told. Contracts see those that were
/// gathered from the list and are not told yet, in their order; that the list has each token once
/// it is dropped is the doing of [`Token`]'s drop, and no contract's.
pub struct ClosedTokens {
    list: Rc<Cell<Link>>,
    gathered: Link,
}

impl Model for ClosedTokens {
    ghost use Rattle.std.specs.Prelude.{List, ℕ};
    ghost use Rattle.held_pool.specs.TokenNumbers.{numbers_in};

    ghost Value = { List ℕ };

    ghost view = { λ tokens. numbers_in tokens.gathered };
}

impl ClosedTokens {
    /// A list of no tokens.
    ///
    /// # Errors
    ///
    /// There is no memory for it.
    pub fn new(alloc: Global) -> Result<ClosedTokens, AllocError>
        ensures { IfOk result (λ tokens. tokens ≡ []) }
    {
        let Ok(list) = Rc::new(alloc, Cell::new(None)) else {
            return Err(AllocError);
        };
        Ok(ClosedTokens {
            list,
            gathered: None,
        })
    }

    /// A token of this list. All memory that its drop needs is taken here.
    ///
    /// # Errors
    ///
    /// There is no memory for it.
    pub fn token(&self, alloc: Global, number: u64) -> Result<Token, AllocError>
        ensures { IfOk result (λ token. token ≡ number) }
    {
        let list = self.list.clone()?;
        let Ok(node) = Box::new(alloc, Node { number, next: None }) else {
            return Err(AllocError);
        };
        Ok(Token::new(node, list))
    }

    /// The next token that was dropped and is not told yet; `None` if there is none.
    pub fn next(&mut self) -> Option<u64>
        ensures some { IfSome result (λ token. IsNext self.old token self.new) }
        ensures none { IfNone result (self.old ≡ []) }
        ensures none_left { IfNone result (self.new ≡ []) }
    {
        if let Some(token) = pop(&mut self.gathered) {
            return Some(token);
        }
        self.gathered = self.list.replace(None);
        pop(&mut self.gathered)
    }

    /// Whether no token is left to be told.
    pub fn is_empty(&mut self) -> bool
        ensures empty { result ≡ true → self.new ≡ [] }
        ensures none { result ≡ true → self.old ≡ [] }
        ensures left { result ≡ false → (self.new ≡ self.old) ⊎ (self.old ≡ []) }
    {
        if self.gathered.is_some() {
            return false;
        }
        self.gathered = self.list.replace(None);
        self.gathered.is_none()
    }
}

impl Drop for ClosedTokens {
    fn drop(self) {
        let ClosedTokens { list, gathered } = self;
        clear(gathered);
        clear(list.replace(None));
    }
}
