//! The exports that make or free a handle, or take a cell.

ghost use Rattle.std.specs.Prelude.{◌≡◌, ◌⊎◌, ◌↔◌, ℕ, None};
ghost use Rattle.cell_callers.specs.{declared.report_codes.TheConstants.{BAD_PARAM, DONE, NO_MEMORY}, CellContents.{IsBadOpening, step_of}, declared.caller_content.CallerContent.TheVariants.Empty};
ghost use Rattle.cells.specs.{Exports.{caller_of, cell_of}, CellExports.{ReportsOpening, ReportsReopening, ReportsForgetting, ReportsNewCaller, ReportsReturn, ReportsClosing, ReportsFreeing, ReportsStep, owns_back}};

use c_handle::{box_of, handle_of, with_content};
use cell_callers::{
    BUSY, Caller, CallerContent, CallerHandle, CellContent, CellHandle, DONE, LoggedStep,
    NO_MEMORY, NOT_FOUND, NoNewCaller, NotClosed, Opening, REFUSED, opening_code,
};
use kernel_object::KernelObject;
use std::alloc::Global;
use std::mem::ManuallyDrop;

/// Takes the content out of the handle, which is then empty.
fn take_caller(handle: &mut CallerHandle) -> CallerContent
    ensures content { result ≡ caller_of handle.old }
    ensures after { caller_of handle.new ≡ Empty }
{
    with_content(handle, (), |content, ()| (CallerContent::Empty, content))
}

/// Puts the content in the empty handle.
fn put_caller(handle: &mut CallerHandle, content: CallerContent)
    requires { caller_of handle.old ≡ Empty }
    ensures { caller_of handle.new ≡ content }
{
    let old = with_content(handle, content, |old, content| (content, old));
    let _nothing = unsafe { ManuallyDrop::new_unchecked(old) };
}

// Stores the pointer of a new handle with that content.
fn alloc_content<T>(alloc: Global, content: T, own: &mut *mut u8) -> u32
    ensures codes { (result ≡ DONE) ⊎ (result ≡ NO_MEMORY) }
    ensures nothing { result ≡ NO_MEMORY → own.new ≡ own.old }
{
    let slot = unsafe { ManuallyDrop::new_unchecked(content) };
    let Ok(block) = Box::new(alloc, slot) else {
        return NO_MEMORY;
    };
    *own = Box::into_raw(block) as *mut u8;
    DONE
}

/// Allocates an empty handle for a cell and stores its pointer in `own`.
/// Returns DONE; NO_MEMORY: `own` is unchanged.
#[unsafe(no_mangle)]
pub extern "C" fn mc2_handle_alloc_cell(alloc: Global, own: &mut *mut u8) -> u32
    ensures codes { (result ≡ DONE) ⊎ (result ≡ NO_MEMORY) }
    ensures nothing { result ≡ NO_MEMORY → own.new ≡ own.old }
{
    alloc_content(alloc, CellContent::Empty, own)
}

/// The same for a caller.
#[unsafe(no_mangle)]
pub extern "C" fn mc2_handle_alloc_caller(alloc: Global, own: &mut *mut u8) -> u32
    ensures codes { (result ≡ DONE) ⊎ (result ≡ NO_MEMORY) }
    ensures nothing { result ≡ NO_MEMORY → own.new ≡ own.old }
{
    alloc_content(alloc, CallerContent::Empty, own)
}

/// Frees a cell's handle with everything that it has. Returns DONE.
#[unsafe(no_mangle)]
pub extern "C" fn mc2_handle_free_cell(handle: CellHandle) -> u32
    ensures { result ≡ DONE }
{
    match ManuallyDrop::into_inner(Box::into_inner(box_of(handle))) {
        CellContent::Cell(cell) => drop(cell),
        CellContent::Ended(logged) => drop(logged),
        CellContent::Empty => {}
    }
    DONE
}

/// Frees a caller's handle with everything that it has. The pass of an idle caller is lost, so its cell can't be closed any more.
/// Returns DONE; REFUSED: it has a caller that isn't idle, and nothing was freed.
#[unsafe(no_mangle)]
pub extern "C" fn mc2_handle_free_caller(handle: CallerHandle) -> u32
    ensures { ReportsFreeing (caller_of handle) result }
{
    let block = box_of(handle);
    if !(**block).is_free() {
        let kept = handle_of::<CallerHandle>(block);
        let _kept = unsafe { ManuallyDrop::new_unchecked(kept) };
        return REFUSED;
    }
    match ManuallyDrop::into_inner(Box::into_inner(block)) {
        CallerContent::Caller(Caller { cell, place }) => {
            drop(place.into_pass(&cell));
            drop(cell);
        }
        CallerContent::Empty => {}
    }
    DONE
}

/// Opens a cell in an empty handle.
/// Returns DONE; REFUSED: the handle isn't empty; BAD_PARAM: a number doesn't fit; NO_MEMORY. After an error the handle is
/// unchanged.
#[unsafe(no_mangle)]
pub extern "C" fn mc2_handle_open_cell(
    alloc: Global,
    cell: &mut CellHandle,
    opening: &Opening,
) -> u32
    ensures opened { ReportsOpening (cell_of cell.old) opening.now result (cell_of cell.new) }
    ensures judged { IsBadOpening (cell_of cell.old) opening.now ↔ (result ≡ BAD_PARAM) }
{
    opening_code(with_content(
        cell,
        opening,
        |content, opening| content.open(alloc, opening),
    ))
}

/// Creates, in the empty handle `caller`, the caller of the highest CPU that has none yet.
/// Returns DONE; REFUSED: the cell isn't open, each CPU has a caller or had one, or `caller` isn't empty; NO_MEMORY: the cell has
/// as many owners as can be counted.
#[unsafe(no_mangle)]
pub extern "C" fn mc2_handle_open_caller(cell: &mut CellHandle, caller: &mut CallerHandle) -> u32
    ensures { ReportsNewCaller (cell_of cell.old) (caller_of caller.old) result (cell_of cell.new) (caller_of caller.new) }
{
    match take_caller(caller) {
        CallerContent::Empty => {
            match with_content(cell, (), |content, ()| content.new_caller()) {
                Ok(dealt) => {
                    put_caller(caller, CallerContent::Caller(dealt));
                    DONE
                }
                Err(NoNewCaller::NoneLeft) => REFUSED,
                Err(NoNewCaller::NoShare) => NO_MEMORY,
            }
        }
        other => {
            put_caller(caller, other);
            REFUSED
        }
    }
}

/// Returns an idle caller to its cell; the caller's handle is then empty. Callers go back in ascending order of CPU.
/// Returns DONE; REFUSED: the cell isn't open, the caller isn't idle, or its CPU isn't the lowest whose caller wasn't returned yet.
#[unsafe(no_mangle)]
pub extern "C" fn mc2_handle_return_caller(cell: &mut CellHandle, caller: &mut CallerHandle) -> u32
    requires { owns_back (cell_of cell.old) (caller_of caller.old) }
    ensures { ReportsReturn (cell_of cell.old) (caller_of caller.old) result (cell_of cell.new) (caller_of caller.new) }
{
    match take_caller(caller) {
        CallerContent::Caller(back) => match with_content(
            cell,
            back,
            |content, back| content.return_caller(back),
        ) {
            Some(left) => {
                put_caller(caller, CallerContent::Caller(left));
                REFUSED
            }
            None => DONE,
        },
        CallerContent::Empty => REFUSED,
    }
}

/// Closes a cell to which every caller was returned. The object and its log remain.
/// Returns DONE; REFUSED: the cell isn't open, or a caller wasn't returned; BUSY: the cell has another owner.
#[unsafe(no_mangle)]
pub extern "C" fn mc2_handle_close_cell(cell: &mut CellHandle) -> u32
    ensures { ReportsClosing (cell_of cell.old) result (cell_of cell.new) }
{
    match with_content(cell, (), |content, ()| content.close()) {
        Ok(()) => DONE,
        Err(NotClosed::NotAllBack) => REFUSED,
        Err(NotClosed::Shared) => BUSY,
    }
}

/// Reopens a closed cell on its object, with the given lock, for the given number of CPUs. The log continues.
/// Returns DONE; REFUSED: the cell isn't closed; BAD_PARAM: a number doesn't fit; NO_MEMORY. After an error the handle is
/// unchanged.
#[unsafe(no_mangle)]
pub extern "C" fn mc2_handle_reopen_cell(
    alloc: Global,
    cell: &mut CellHandle,
    lock: u32,
    cpus: u32,
) -> u32
    ensures { ReportsReopening (cell_of cell.old) lock cpus result (cell_of cell.new) }
{
    let how = (lock, cpus);
    opening_code(with_content(
        cell,
        how,
        |content, (lock, cpus)| content.reopen(alloc, lock, cpus),
    ))
}

/// Stops keeping the log of a closed cell. From then on it can't be read, and has room for 2^64 - 1 events.
/// Returns DONE; REFUSED: the cell isn't closed.
#[unsafe(no_mangle)]
pub extern "C" fn mc2_handle_drop_log(alloc: Global, cell: &mut CellHandle) -> u32
    ensures dropped { ReportsForgetting (cell_of cell.old) result (cell_of cell.new) }
    ensures unread { result ≡ DONE → (event step : ℕ) → step_of (cell_of cell.new) event step ≡ None }
{
    if with_content(cell, (), |content, ()| content.forget(alloc)) {
        DONE
    } else {
        REFUSED
    }
}

/// Reads one step of the log of a closed cell. Both indices count from 0.
/// Returns DONE: the step is written; NOT_FOUND: there is no such step, the cell isn't closed, or its log isn't kept.
#[unsafe(no_mangle)]
pub extern "C" fn mc2_handle_read_step(
    cell: &mut CellHandle,
    event: usize,
    step: usize,
    reported: &mut LoggedStep,
) -> u32
    ensures { ReportsStep (cell_of cell.old) event step reported.old result (cell_of cell.new) reported.new }
{
    let found = with_content(cell, (event, step), |content, (event, step)| {
        let found = content.step_at(event, step);
        (content, found)
    });
    match found {
        Some(step) => {
            *reported = step;
            DONE
        }
        None => NOT_FOUND,
    }
}
