//! Lists of numbers as chains: a number stands at most once in all of them, and each change is made in a few steps.

ghost use Rattle.std.specs.{Prelude.{◌≡◌, ◌+◌, ◌^◌, ◌<◌, ◌≢◌, true, false, [], ◌∷◌, ◌++◌, IfOk, length, get_or, replicate}, List.concat};
ghost use Rattle.event_log.specs.{Distinct.{has, without}, Chain.with_list, Links.{Joins, Cuts}};

use std::alloc::{AllocError, Global};
use std::marker::Model;

/// Where a chain begins and ends. In a chain of no number the ends say nothing.
#[derive(Clone, Copy, Drop)]
struct Ends {
    first: u32,
    last: u32,
    count: u32,
}

const NO_ENDS: Ends = Ends {
    first: 0,
    last: 0,
    count: 0,
};

/// Lists of the numbers 0 to `numbers - 1`; each number stands at most once in all of them. All memory is taken when they
/// are made.
#[derive(Drop)]
pub struct Chains {
    numbers: u32,
    next: Vec<u32>,
    previous: Vec<u32>,
    stands: Vec<bool>,
    ends: Vec<Ends>,
}

impl Model for Chains {
    ghost use Rattle.event_log.specs.{Chain.ChainLists, Links.{lists_of, view_of, AreChains}};

    ghost Value = { ChainLists };

    ghost view = { λ s. view_of s.numbers s.next.items s.ends.items };

    ghost invariant = { λ s. AreChains s.numbers s.next.items s.previous.items s.stands.items s.ends.items (lists_of s.next.items s.ends.items) };
}

impl Chains {
    /// That many lists, and none of the numbers in any.
    pub fn new(alloc: Global, numbers: u32, chains: usize) -> Result<Chains, AllocError>
        ensures { IfOk result (λ s. s ≡ record { numbers = numbers; lists = replicate chains [] }) }
    {
        let next = vec![in alloc; 0; numbers as usize]?;
        let previous = vec![in alloc; 0; numbers as usize]?;
        let stands = vec![in alloc; false; numbers as usize]?;
        let ends = vec![in alloc; NO_ENDS; chains]?;
        Ok(Chains {
            numbers,
            next,
            previous,
            stands,
            ends,
        })
    }

    /// How many numbers there are, in a list or in none.
    pub fn numbers(&self) -> u32
        ensures { result ≡ self.now.numbers }
    {
        self.numbers
    }

    /// How many lists there are.
    pub fn chains(&self) -> usize
        ensures { result ≡ length self.now.lists }
    {
        self.ends.len()
    }

    /// Whether the number stands in one of the lists.
    pub fn stands(&self, number: u32) -> bool
        requires { number < self.now.numbers }
        ensures { result ≡ has number (concat self.now.lists) }
    {
        self.stands[number as usize]
    }

    /// How many numbers the list has.
    pub fn count(&self, chain: usize) -> u32
        requires { chain < length self.now.lists }
        ensures { result ≡ length (get_or self.now.lists chain []) }
    {
        self.ends[chain].count
    }

    /// Puts a number that stands in no list at the end of this one.
    #[inline]
    pub fn put(&mut self, chain: usize, number: u32)
        requires chain { chain < length self.old.lists }
        requires number { number < self.old.numbers }
        requires absent { has number (concat self.old.lists) ≡ false }
        ensures { self.new ≡ with_list self.old chain (get_or self.old.lists chain [] ++ number ∷ []) }
    {
        let ends = self.ends[chain];
        let one = Ends {
            first: number,
            last: number,
            count: 1,
        };
        self.stands[number as usize] = true;
        self.ends[chain] = join(&mut self.next, &mut self.previous, ends, one);
    }

    /// Takes the number out of the list in which it stands; the rest keeps its order.
    #[inline]
    pub fn take_out(&mut self, chain: usize, number: u32)
        requires chain { chain < length self.old.lists }
        requires present { has number (get_or self.old.lists chain []) ≡ true }
        ensures { self.new ≡ with_list self.old chain (without number (get_or self.old.lists chain [])) }
    {
        let ends = self.ends[chain];
        self.stands[number as usize] = false;
        self.ends[chain] = cut(&mut self.next, &mut self.previous, ends, number);
    }

    /// Takes the first number of a list that has one.
    #[inline]
    pub fn take_first(&mut self, chain: usize) -> u32
        requires chain { chain < length self.old.lists }
        requires some { 0 < length (get_or self.old.lists chain []) }
        ensures first { get_or self.old.lists chain [] ≡ result ∷ get_or self.new.lists chain [] }
        ensures rest { self.new ≡ with_list self.old chain (get_or self.new.lists chain []) }
        ensures number { result < self.new.numbers }
        ensures gone { has result (concat self.new.lists) ≡ false }
    {
        let first = self.ends[chain].first;
        self.take_out(chain, first);
        first
    }

    /// Puts all numbers of the one list, in their order, at the end of the other.
    pub fn append(&mut self, to: usize, from: usize)
        requires to { to < length self.old.lists }
        requires from { from < length self.old.lists }
        requires other { to ≢ from }
        ensures { self.new ≡ with_list (with_list self.old from []) to (get_or self.old.lists to [] ++ get_or self.old.lists from []) }
    {
        let front = self.ends[to];
        let back = self.ends[from];
        self.ends[from] = NO_ENDS;
        self.ends[to] = join(&mut self.next, &mut self.previous, front, back);
    }
}

/// Links the one chain's last number and the other's first, and gives the ends of both together.
#[inline]
fn join(next: &mut Vec<u32>, previous: &mut Vec<u32>, front: Ends, back: Ends) -> Ends
    requires front { 0 < front.count → front.last < length next.old.items }
    requires back { 0 < back.count → back.first < length previous.old.items }
    requires few { front.count + back.count < 2 ^ 32 }
    ensures { Joins next.old.items previous.old.items front back next.new.items previous.new.items result }
{
    if front.count == 0 {
        return back;
    }
    if back.count == 0 {
        return front;
    }
    next[front.last as usize] = back.first;
    previous[back.first as usize] = front.last;
    Ends {
        first: front.first,
        last: back.last,
        count: front.count + back.count,
    }
}

/// Links the numbers before and behind this one, and gives the ends of the chain without it.
#[inline]
fn cut(next: &mut Vec<u32>, previous: &mut Vec<u32>, ends: Ends, number: u32) -> Ends
    requires some { 0 < ends.count }
    requires next { number < length next.old.items }
    requires previous { number < length previous.old.items }
    requires before { number ≢ ends.first → number ≢ ends.last → get_or previous.old.items number 0 < length next.old.items }
    requires behind { number ≢ ends.first → number ≢ ends.last → get_or next.old.items number 0 < length previous.old.items }
    ensures { Cuts next.old.items previous.old.items ends number next.new.items previous.new.items result }
{
    let before = previous[number as usize];
    let after = next[number as usize];
    let count = ends.count - 1;
    if number == ends.first {
        return Ends {
            first: after,
            last: ends.last,
            count,
        };
    }
    if number == ends.last {
        return Ends {
            first: ends.first,
            last: before,
            count,
        };
    }
    next[before as usize] = after;
    previous[after as usize] = before;
    Ends {
        first: ends.first,
        last: ends.last,
        count,
    }
}
