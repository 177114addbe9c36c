//! C's pointer to a cell.

ghost use Rattle.std.specs.Prelude.{◌≡◌};
ghost use Rattle.core.specs.Mem.{manually_drop_value};
ghost use Rattle.c_handle.specs.Handles.{Slot, slot_coded, handle_owns};
ghost use Rattle.cell_callers.specs.contracts.cell_content.CellContent.{the_row};

use crate::CellContent;
use c_handle::{Handle, Parts};
use std::alloc::Global;
use std::marker::Model;
use std::mem::ManuallyDrop;

/// Owns the content at its pointer. It can't be dropped.
#[repr(C)]
pub struct CellHandle {
    // C sees no type with an atomic word.
    ptr: *mut u8,
    alloc: Global,
    pub ghost slot: { Slot the_row } by { slot_coded the_row },
}

impl Model for CellHandle {
    ghost also_owns = { λ h. handle_owns the_row h.alloc h.ptr h.slot };
}

impl Handle for CellHandle {
    type Content = CellContent;

    ghost content = { λ h. manually_drop_value h.slot };

    fn of_parts(parts: Parts<ManuallyDrop<CellContent>, Global>) -> CellHandle
        ensures { result.slot ≡ parts.value }
    {
        let Parts { ptr, alloc } = parts;
        CellHandle {
            ptr: ptr as *mut u8,
            alloc,
        }
    }

    fn into_parts(self) -> Parts<ManuallyDrop<CellContent>, Global>
        ensures { result.value ≡ self.slot }
    {
        let CellHandle { ptr, alloc } = self;
        Parts {
            ptr: ptr as *mut ManuallyDrop<CellContent>,
            alloc,
        }
    }
}

unsafe impl Send for CellHandle {}
