ghost use Rattle.std.specs.Prelude.{◌≡◌};
ghost use Rattle.held_pool.specs.declared.token_node.Node.{out-Node};

use crate::token_node::{Link, Node};
use std::cell::Cell;
use std::marker::Model;
use std::rc::Rc;

/// The token of an open connection. Once it is dropped its list has it.
pub struct Token {
    node: Box<Node>,
    closed: Rc<Cell<Link>>,
}

impl Model for Token {
    ghost use Rattle.std.specs.Prelude.{ℕ};
    ghost use Rattle.held_pool.specs.declared.token_node.Node.{out-Node};

    ghost Value = { ℕ };

    ghost view = { λ token. (out-Node token.node.value).number };
}

impl Drop for Token {
    fn drop(self) {
        let Token { mut node, closed } = self;
        node.next = closed.replace(None);
        closed.set(Some(node));
    }
}

impl Token {
    pub(crate) fn new(node: Box<Node>, closed: Rc<Cell<Link>>) -> Token
        ensures { result ≡ (out-Node node.value).number }
    {
        Token { node, closed }
    }

    /// Its number.
    pub fn number(&self) -> u64
        ensures { result ≡ self.now }
    {
        self.node.number
    }
}
