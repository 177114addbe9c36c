//! A pool of pages, as one kind of object.

ghost use Rattle.std.specs.{Prelude.{◌≡◌, map, decimal}, Option.option_map};
ghost use Rattle.kernel_object.specs.declared.kind.Kind.TheVariants.{Pool};
ghost use Rattle.kernel_words.specs.{Kinds.Pool.{pool_text, pool_row, pool_filled, all_quotas_at, quotas_at, pool_params_at}, declared.form.TheConstants.WRITTEN};
ghost use Rattle.record_lines.specs.{Output.PutsWords, Reading.left};

use crate::tables::read::{limited, quota as next_quota};
use crate::tables::spelling::{first, second};
use crate::{Field, Form, Spelling};
use event_log::Sink;
use page_pool::{MOST_PAGES, OWNERS, PoolCall, PoolParams};
use record_lines::{Buffered, Words, put_number};

/// How a call is spelled.
#[inline(always)]
pub fn spelling(call: PoolCall) -> Spelling
    ensures word { result.word.now ≡ (pool_row call).word }
    ensures fields { result.fields.items ≡ (pool_row call).fields }
{
    match call {
        PoolCall::Alloc(owner) => Spelling::one(b"alloc", Field::wide(owner)),
        PoolCall::Free { owner, page } => {
            Spelling::two(b"free", Field::wide(owner), Field::wide(page))
        }
        PoolCall::Left => Spelling::word(b"left"),
    }
}

/// The call of the same word with these numbers.
#[inline(always)]
pub fn with_numbers(call: PoolCall, numbers: &[u32]) -> PoolCall
    ensures { result ≡ pool_filled call numbers.now }
{
    match call {
        PoolCall::Alloc(_) => PoolCall::Alloc(first(numbers)),
        PoolCall::Free { owner: _, page: _ } => PoolCall::Free {
            owner: first(numbers),
            page: second(numbers),
        },
        PoolCall::Left => PoolCall::Left,
    }
}

/// The quotas of all owners that are next.
fn all_quotas(at: Words<'_>) -> Option<([u32; OWNERS], Words<'_>)>
    ensures { option_map (λ x. (x.0, left x.1)) result ≡ all_quotas_at (left at.entry) }
{
    let mut quotas = [0; OWNERS];
    let mut left = at;
    for place in 0..OWNERS {
        let (number, rest) = next_quota(left)?;
        quotas[place] = number;
        left = rest;
    }
    Some((quotas, left))
}

/// The quotas of a pool of so many pages, in that form.
#[tactic(auto, unfolding(crate::specs::Kinds::Pool::quotas_at))]
fn quotas_behind(form: Form, pages: u32, at: Words<'_>) -> Option<([u32; OWNERS], Words<'_>)>
    ensures { option_map (λ x. (x.0, left x.1)) result ≡ quotas_at form pages (left at.entry) }
{
    match form {
        Form::One => Some(([pages; OWNERS], at)),
        Form::Two => all_quotas(at),
    }
}

/// The number of pages and the quotas that are next.
#[tactic(auto, unfolding(crate::specs::Kinds::Pool::pool_params_at))]
pub fn params(form: Form, at: Words<'_>) -> Option<(PoolParams, Words<'_>)>
    ensures { option_map (λ x. (x.0, left x.1)) result ≡ pool_params_at form (left at.entry) }
{
    let (pages, rest) = limited(MOST_PAGES, at)?;
    let (quotas, rest) = quotas_behind(form, pages, rest)?;
    Some((PoolParams { pages, quotas }, rest))
}

/// Puts numbers, each behind a space.
fn put_numbers<W: Sink>(text: &mut Buffered<W>, numbers: &[u32])
    ensures { PutsWords W.Sink text.old text.new (map decimal numbers.now) }
{
    for number in numbers {
        put_number(text, u64::from(*number));
    }
}

/// Puts the number of pages and the quotas.
pub fn put_params<W: Sink>(text: &mut Buffered<W>, params: &PoolParams)
    ensures { PutsWords W.Sink text.old text.new (pool_text.params_words WRITTEN params.now) }
{
    put_number(text, u64::from(params.pages));
    put_numbers(text, &params.quotas);
}
