// The declarations of all files.

ghost use Rattle.std.specs.Prelude.{◌≡◌, IfOk, OnOk};
ghost use Rattle.dae_unit.specs.Linkage.{rows_of, rows_of_file};

use dae_types_file_plans::FileDeclaration;
use dae_types_typed::TypedFile;
use std::alloc::{AllocError, Global};

/// A declaration at file scope, by the number of its file.
#[derive(Clone, Copy)]
pub struct FileRow {
    pub file: usize,
    pub declaration: FileDeclaration,
}

fn push_rows(
    rows: &mut Vec<FileRow>,
    file: usize,
    declarations: &[FileDeclaration],
) -> Result<(), AllocError>
    ensures { OnOk result (rows.new.items ≡ rows_of_file rows.old.items file declarations.now) }
{
    for declaration in declarations {
        rows.push(FileRow {
            file,
            declaration: *declaration,
        })?;
    }
    Ok(())
}

/// The declarations of all files, in the order of the files and of the text.
pub fn rows_of(alloc: Global, files: &[TypedFile]) -> Result<Vec<FileRow>, AllocError>
    ensures { IfOk result (λ rows. rows.items ≡ rows_of files.now) }
{
    let mut rows = Vec::new(alloc);
    for (number, file) in files.iter().enumerate() {
        push_rows(&mut rows, number, file.parts().declarations.as_slice())?;
    }
    Ok(rows)
}
