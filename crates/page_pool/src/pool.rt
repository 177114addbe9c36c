//! The pool: a table of owners, and the free pages as a set of bits.

ghost use Rattle.std.specs.Prelude.{◌≡◌};
ghost use Rattle.page_pool.specs.{Table.left_of, Answer.{alloc_answer, free_answer}};

use crate::pages::PageSet;
use crate::params::{LAST_OWNER, OWNERS, PoolParams};
use crate::{PoolCall, PoolReply};
use event_log::{OpenFault, SeqObject};
use std::alloc::Global;
use std::marker::Model;

/// A pool of the pages 0 to `pages - 1`: entry p of the table is the owner of page p. The pages without an owner are kept
/// as a set too, and so are their number and the number of pages of each owner. All is made when the pool is opened.
#[derive(Drop)]
pub struct PagePool {
    pages: u32,
    quotas: [u32; OWNERS],
    owners: Vec<Option<u32>>,
    free: PageSet,
    left: u32,
    counts: [u32; OWNERS],
}

impl Model for PagePool {
    ghost use Rattle.std.specs.Prelude.{◌≡◌, ◌≤◌, length};
    ghost use Rattle.page_pool.specs.{State.PoolState, Agreeing.IsAgreed};

    ghost Value = { PoolState };

    ghost view = { λ s. record { pages = s.pages; quotas = s.quotas; owners = s.owners.items } };

    ghost invariant = { λ s. IsAgreed s.pages s.owners.items s.free s.left s.counts };
}

impl PagePool {
    fn give(&mut self, owner: u32) -> PoolReply
        ensures { (self.new, result) ≡ alloc_answer self.old owner }
    {
        if owner > LAST_OWNER {
            return PoolReply::BadOwner;
        }
        let Some(page) = self.free.least() else {
            return PoolReply::NoPage;
        };
        if self.counts[owner as usize] >= self.quotas[owner as usize] {
            return PoolReply::OverQuota;
        }
        self.owners[page as usize] = Some(owner);
        self.free.remove(page);
        self.left -= 1;
        self.counts[owner as usize] += 1;
        PoolReply::Page(page)
    }

    fn take_back(&mut self, owner: u32, page: u32) -> PoolReply
        ensures { (self.new, result) ≡ free_answer self.old owner page }
    {
        if owner > LAST_OWNER {
            return PoolReply::BadOwner;
        }
        if page >= self.pages {
            return PoolReply::BadPage;
        }
        match self.owners[page as usize] {
            None => PoolReply::NotTaken,
            Some(other) if other != owner => PoolReply::NotYours,
            Some(_) => {
                self.owners[page as usize] = None;
                self.free.add(page);
                self.left += 1;
                self.counts[owner as usize] -= 1;
                PoolReply::Ok
            }
        }
    }

    fn count(&self) -> u32
        ensures { result ≡ left_of self.now.owners }
    {
        self.left
    }
}

impl SeqObject for PagePool {
    ghost use Rattle.page_pool.specs.{State.{is_in_range, opening_state}, Answer.{pool_answer, is_refusing}};
    ghost use Rattle.std.proofs.Common.{lit<, rules};

    type Params = PoolParams;

    type Call = PoolCall;

    type Reply = PoolReply;

    ghost in_range = { is_in_range };

    ghost opening = { opening_state };

    ghost answer = { pool_answer };

    ghost refusing = { is_refusing };

    ghost stays = { Prim.search rules };

    ghost call_equality = { Prim.search rules };

    ghost reply_equality = { Prim.search rules };

    ghost call_fits = { lit< tt };

    ghost todo_fits = { lit< tt };

    ghost steps_fit = { lit< tt };

    ghost event_fits = { lit< tt };

    ghost entry_fits = { lit< tt };

    fn open(alloc: Global, params: &PoolParams) -> Result<PagePool, OpenFault> {
        if !params.is_in_range() {
            return Err(OpenFault::BadLimit);
        }
        let PoolParams { pages, quotas } = *params;
        let owners = vec![in alloc; None; pages as usize]?;
        Ok(PagePool {
            pages,
            quotas,
            owners,
            free: PageSet::all(alloc, pages)?,
            left: pages,
            counts: [0; OWNERS],
        })
    }

    #[inline]
    fn apply(&mut self, call: &PoolCall) -> PoolReply {
        match *call {
            PoolCall::Alloc(owner) => self.give(owner),
            PoolCall::Free { owner, page } => self.take_back(owner, page),
            PoolCall::Left => PoolReply::Count(self.count()),
        }
    }

    fn refuses(reply: &PoolReply) -> bool {
        match *reply {
            PoolReply::NoPage
            | PoolReply::OverQuota
            | PoolReply::BadOwner
            | PoolReply::NotYours
            | PoolReply::NotTaken
            | PoolReply::BadPage => true,
            PoolReply::Ok | PoolReply::Page(_) | PoolReply::Count(_) => false,
        }
    }
}
