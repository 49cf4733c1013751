//! The items of a list and the members of an object of a text, one after another: where each stands.
#![tactic(auto)]

ghost use Rattle.std.specs.Prelude.{◌≡◌, ◌≤◌, length};
ghost use Rattle.json_tokens.specs.Text.{most_text};

use json_values::{Turn, after, named, opened, value};

/// A member: where its name stands, and where its value does.
#[derive(Clone, Copy)]
pub struct Member {
    pub name: usize,
    pub value: usize,
}

/// The items of a list that a walk hasn't passed. In each so many lists and objects may stand one
/// in the other.
#[derive(Clone, Copy)]
pub struct Items<'a> {
    /// The text.
    pub text: &'a [u8],
    /// How many lists and objects may stand in an item.
    pub left: usize,
    /// Where the walk is.
    pub turn: Turn,
    ghost short: { length text.now ≤ most_text },
}

/// The members of an object that a walk hasn't passed. In the value of each so many lists and objects
/// may stand one in the other.
#[derive(Clone, Copy)]
pub struct Members<'a> {
    /// The text.
    pub text: &'a [u8],
    /// How many lists and objects may stand in a member's value.
    pub left: usize,
    /// Where the walk is.
    pub turn: Turn,
    ghost short: { length text.now ≤ most_text },
}

impl<'a> Items<'a> {
    ghost use Rattle.json_walks.specs.Walks.{items_in};
    ghost use Rattle.json_walks.specs.Left.{items_left};

    /// Those of the list whose [ ends at an offset.
    pub fn of(text: &'a [u8], at: usize, left: usize) -> Items<'a>
        requires { length text.now ≤ most_text }
        ensures { items_left result ≡ items_in left text.now at }
    {
        Items {
            text,
            left,
            turn: opened(0x5d, text, at),
        }
    }
}

impl<'a> Members<'a> {
    ghost use Rattle.json_walks.specs.Walks.{members_in};
    ghost use Rattle.json_walks.specs.Left.{members_left};

    /// Those of the object whose { ends at an offset.
    pub fn of(text: &'a [u8], at: usize, left: usize) -> Members<'a>
        requires { length text.now ≤ most_text }
        ensures { members_left result ≡ members_in left text.now at }
    {
        Members {
            text,
            left,
            turn: opened(0x7d, text, at),
        }
    }
}

#[tactic(auto, using(crate::proofs::Turns::item_turns))]
impl Iterator for Items<'_> {
    ghost use Rattle.std.specs.Iterator.{YieldsFirst, item_count};
    ghost use Rattle.json_walks.specs.Left.{items_left};

    type Item = usize;

    ghost next_gives = { YieldsFirst items_left };

    ghost remaining = { item_count items_left };

    fn next(&mut self) -> Option<usize> {
        match self.turn {
            Turn::Done(_) => None,
            Turn::Bad => None,
            Turn::Next(i) => {
                let e = value(self.text, i, self.left)?;
                self.turn = after(0x5d, self.text, e);
                Some(i)
            }
        }
    }
}

#[tactic(auto, using(crate::proofs::Turns::member_turns))]
impl Iterator for Members<'_> {
    ghost use Rattle.std.specs.Iterator.{YieldsFirst, item_count};
    ghost use Rattle.json_walks.specs.Left.{members_left};

    type Item = Member;

    ghost next_gives = { YieldsFirst members_left };

    ghost remaining = { item_count members_left };

    fn next(&mut self) -> Option<Member> {
        match self.turn {
            Turn::Done(_) => None,
            Turn::Bad => None,
            Turn::Next(i) => {
                let p = named(self.text, i)?;
                let e = value(self.text, p, self.left)?;
                self.turn = after(0x7d, self.text, e);
                Some(Member { name: i, value: p })
            }
        }
    }
}
