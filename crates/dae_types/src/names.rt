// The numbers of the names of main and of the library's functions, and copies of names and literals.

ghost use Rattle.std.specs.Prelude.{◌≡◌, IfOk};
ghost use Rattle.dae_types_linkage.specs.Numbering.{view_numbers};
ghost use Rattle.dae_types.specs.Names.{numbers_in, number_among};

use dae_base::Items;
use dae_types_kinds::word_behind;
use dae_types_linkage::LibraryNames;
use std::alloc::{AllocError, Global};

/// The number of a name among names, if it is there.
fn number_among(names: &[Items<u8>], name: &[u8]) -> Option<u32>
    ensures { result ≡ number_among names.now name.now }
{
    let mut number: u32 = 0;
    for other in names {
        if other.as_slice() == name {
            return Some(number);
        }
        number = word_behind(number);
    }
    None
}

/// The numbers of the names that a file may have from its headers, and of main.
pub fn numbers_in(names: &[Items<u8>]) -> LibraryNames
    ensures { view_numbers result ≡ numbers_in names.now }
{
    LibraryNames {
        printf: number_among(names, b"printf"),
        putchar: number_among(names, b"putchar"),
        exit: number_among(names, b"exit"),
        abort: number_among(names, b"abort"),
        main: number_among(names, b"main"),
    }
}

/// A copy of bytes.
fn copy_bytes(alloc: Global, bytes: &[u8]) -> Result<Items<u8>, AllocError>
    ensures { IfOk result (λ copy. copy ≡ bytes.now) }
{
    let copy = Vec::from_slice(alloc, bytes)?;
    Ok(Items::from_vec(copy))
}

/// A copy of lists of bytes.
pub fn copy_all(alloc: Global, list: &[Items<u8>]) -> Result<Items<Items<u8>>, AllocError>
    ensures { IfOk result (λ copy. copy ≡ list.now) }
{
    let mut copy = Items::new(alloc);
    for bytes in list {
        copy.push(copy_bytes(alloc, bytes.as_slice())?)?;
    }
    Ok(copy)
}
