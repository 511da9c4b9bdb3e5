//! Memory for the arguments of the other calls.
ghost use Rattle.std.specs.Prelude.{◌≡◌, ◌⊎◌};
ghost use types.Logic.{sem};
ghost use Rattle.gixp_web.specs.Memory.{Bytes, BytesIfTaken};

use std::alloc::{Allocator, Global};

// An allocation failed.
const NO_MEMORY: u32 = 4;

/// Takes `len` bytes of the module's memory for the caller, and writes their address. They are the caller's until `gixp_give` takes
/// them back, and hold what was there before. `alloc` has no bytes: any address but 0 will do.
///
/// Returns 0, or 4 if an allocation failed. Then the address is unchanged.
#[unsafe(no_mangle)]
pub extern "C" fn gixp_take(alloc: &Global, len: usize, at: &mut *mut u8) -> u32
    ensures* bytes { sem 𝓛 (BytesIfTaken alloc.now len result at.new) }
    ensures outcome { (result ≡ 0) ⊎ ((result ≡ 4) × (at.new ≡ at.old)) }
{
    match alloc.allocate(len, 1) {
        Ok(bytes) => {
            *at = bytes;
            0
        }
        Err(_) => NO_MEMORY,
    }
}

/// Gives back the `len` bytes at an address that `gixp_take` wrote for this length. The caller no longer reads or writes them: later
/// calls use them.
#[unsafe(no_mangle)]
pub unsafe extern "C" fn gixp_give(alloc: &Global, at: *mut u8, len: usize)
    requires* bytes { sem 𝓛 (Bytes alloc.now len at) }
{
    alloc.deallocate(at, len, 1);
}
