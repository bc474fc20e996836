//! Sets of small numbers, such as the ports of a bridge.
#![tactic(auto)]

ghost use Rattle.std.specs.Prelude.{◌≡◌, ℕ, ◌+◌, ◌*◌, ◌<◌, ◌≤◌, ◌==◌, ◌||◌, ◌&&◌, ◌↔◌, if◌then◌else◌, List, [], false, not, length, IsTrue, slice_get, nat_eq};
ghost use Rattle.std.specs.List.{All};
ghost use Rattle.std.specs.List.Sorted.{IsStrictlyIncreasing};
ghost use Rattle.std.specs.Cmp.{partial_equiv_from_equiv};
ghost use Rattle.std.specs.Cmp.Lexicographic.{pointwise, nat_list_eq_equiv};
ghost use Rattle.std.specs.Int.{bit_at};
ghost use Rattle.std.specs.Iterator.{YieldsFirst, item_count};
ghost use Rattle.port_sets.specs.Numbers.{numbers_below, has_number, IsSetBelow};
ghost use Rattle.port_sets.specs.Words.{members};

use std::marker::Model;

/// A set of numbers below 64 `W`, each of which is a `u8`: words after the fourth stay 0.
///
/// Contracts see the ascending list of the members.
#[derive(Clone, Copy, Debug)]
pub struct PortSet<const W: usize> {
    words: [u64; W],
}

/// A set of the ports of a bridge, whose numbers are below 256.
pub type Ports = PortSet<4>;

impl<const W: usize> Model for PortSet<W> {
    ghost use Rattle.std.specs.Prelude.{List, ℕ};
    ghost use Rattle.port_sets.specs.Words.{members, words_with, AreWords};
    ghost use Rattle.port_sets.specs.WordsOfMembers.{words_with-members};

    ghost Value = { List ℕ };

    ghost view = { λ s. members W s.words };

    ghost invariant = { λ s. AreWords W s.words };

    ghost inverse = { λ numbers. record { words = words_with W numbers } };

    ghost inverse_ok = { λ s h i. record { words = words_with-members W s.words h i } };
}

impl<const W: usize> PartialEq for PortSet<W> {
    ghost eq = { pointwise nat_eq };

    ghost laws = { partial_equiv_from_equiv nat_list_eq_equiv };

    fn eq(&self, other: &Self) -> bool {
        self.words == other.words
    }
}

impl<const W: usize> Eq for PortSet<W> {
    ghost laws = { nat_list_eq_equiv };
}

impl<const W: usize> PortSet<W> {
    /// The set of no number.
    pub fn empty() -> PortSet<W>
        ensures { result ≡ [] }
    {
        PortSet { words: [0; W] }
    }

    /// The set whose members are the set bits of the words, the lowest bit of the first word first.
    pub fn from_words(words: [u64; W]) -> PortSet<W>
        requires { W ≤ 4 }
        ensures { result ≡ members W words.entry }
    {
        PortSet { words }
    }

    /// The words whose set bits are the members, the lowest bit of the first word first.
    pub fn words(&self) -> [u64; W]
        ensures members { members W result ≡ self.now }
        ensures len { length result ≡ W }
    {
        self.words
    }

    /// Whether `n` is a member.
    pub fn has(&self, n: u8) -> bool
        ensures value { result ≡ has_number self.now n }
        ensures above { 64 * W ≤ n → result ≡ false }
    {
        let place = n as usize / 64;
        place < W && (self.words[place] >> (n % 64)) & 1 == 1
    }

    /// The members and `n`.
    pub fn with(self, n: u8) -> PortSet<W>
        requires { n < 64 * W }
        ensures { result ≡ numbers_below (64 * W) (λ m. (m == n) || has_number self.entry m) }
    {
        let mut words = self.words;
        words[n as usize / 64] |= 1 << (n % 64);
        PortSet { words }
    }

    /// The members other than `n`, whatever `n` is.
    pub fn without(self, n: u8) -> PortSet<W>
        ensures { result ≡ numbers_below (64 * W) (λ m. has_number self.entry m && not (m == n)) }
    {
        let mut words = self.words;
        let place = n as usize / 64;
        if place < W {
            words[place] &= !(1 << (n % 64));
        }
        PortSet { words }
    }

    /// Puts `n` in or takes it out. It writes one word, and moves no set.
    pub fn switch(&mut self, n: u8, on: bool)
        requires { n < 64 * W }
        ensures { self.new ≡ numbers_below (64 * W) (λ m. if m == n then on else has_number self.old m) }
    {
        let place = n as usize / 64;
        if on {
            self.words[place] |= 1 << (n % 64);
            return;
        }
        self.words[place] &= !(1 << (n % 64));
    }

    /// The members of both sets.
    pub fn and(self, other: PortSet<W>) -> PortSet<W>
        ensures { result ≡ numbers_below (64 * W) (λ m. has_number self.entry m && has_number other.entry m) }
    {
        let mut words = self.words;
        for i in 0..W {
            words[i] &= other.words[i];
        }
        PortSet { words }
    }

    /// The members of either set.
    pub fn or(self, other: PortSet<W>) -> PortSet<W>
        ensures { result ≡ numbers_below (64 * W) (λ m. has_number self.entry m || has_number other.entry m) }
    {
        let mut words = self.words;
        for i in 0..W {
            words[i] |= other.words[i];
        }
        PortSet { words }
    }

    /// The members that `other` lacks.
    pub fn minus(self, other: PortSet<W>) -> PortSet<W>
        ensures { result ≡ numbers_below (64 * W) (λ m. has_number self.entry m && not (has_number other.entry m)) }
    {
        let mut words = self.words;
        for i in 0..W {
            words[i] &= !other.words[i];
        }
        PortSet { words }
    }

    /// Whether there is no member.
    pub fn is_empty(&self) -> bool
        ensures { IsTrue result ↔ (self.now ≡ []) }
    {
        self.first().is_none()
    }

    /// The least member.
    pub fn first(&self) -> Option<u8>
        ensures value { result ≡ slice_get self.now 0 }
        ensures ordered { IsSetBelow (64 * W) self.now }
    {
        for i in 0..W {
            let word = self.words[i];
            if word != 0 {
                return Some((64 * i as u32 + word.trailing_zeros()) as u8);
            }
        }
        None
    }

    /// Takes the least member out.
    fn take_first(&mut self) -> Option<u8>
        ensures { YieldsFirst (λ s. s) self.old result self.new }
    {
        for i in 0..W {
            let word = self.words[i];
            if word != 0 {
                let bit = word.trailing_zeros();
                self.words[i] = word & !(1 << bit);
                return Some((64 * i as u32 + bit) as u8);
            }
        }
        None
    }

    /// The members, ascending.
    pub fn iter(&self) -> Members<W>
        ensures members { result ≡ self.now }
        ensures ordered { IsSetBelow (64 * W) self.now }
        ensures below { All (λ n. n < 64 * W) result }
        ensures few { length result ≤ 64 * W }
    {
        // law: the members ascend
        self.members_ascend();
        Members { left: *self }
    }

    /// A law, whose body does nothing: the members ascend, each once, and are below 64 `W`.
    pub fn members_ascend(&self)
        ensures ordered { IsSetBelow (64 * W) self.now }
        ensures ascending { IsStrictlyIncreasing self.now }
        ensures below { All (λ n. n < 64 * W) self.now }
        ensures few { length self.now ≤ 64 * W }
    {
        // law: the invariant says it
        let _words = &self.words;
    }
}

impl PortSet<1> {
    /// The set whose members are the bits of the word: bit `n` stands for `n`.
    pub fn from_word(word: u64) -> PortSet<1>
        ensures { result ≡ numbers_below 64 (λ n. bit_at word n == 1) }
    {
        PortSet { words: [word] }
    }
}

/// The members of a set that are left to yield, ascending.
#[derive(Drop)]
pub struct Members<const W: usize> {
    left: PortSet<W>,
}

impl<const W: usize> Model for Members<W> {
    ghost use Rattle.std.specs.Prelude.{List, ℕ};

    ghost Value = { List ℕ };

    ghost view = { λ s. s.left };
}

impl<const W: usize> Iterator for Members<W> {
    type Item = u8;

    ghost next_gives = { YieldsFirst (λ s. s) };

    ghost remaining = { item_count (λ s. s) };

    fn next(&mut self) -> Option<u8> {
        self.left.take_first()
    }
}
