// From source files to their image and report: their texts are fetched, and compiled.
ghost use Rattle.std.specs.Prelude.{◌≡◌, ◌≤◌, true, IfErr, IfOk, length, map, string_bytes};
ghost use Rattle.std.specs.List.{All, list_all};
ghost use Rattle.std.specs.Str.{is_utf8};
ghost use Rattle.dae_accept.specs.Read.{IsShort, texts_in};
ghost use Rattle.dae_cli_drive.specs.Puts.{stop_answer};
ghost use Rattle.dae_cli_drive.specs.ImageFiles.{NoneOf};
ghost use Rattle.dae_cli_drive.specs.Shelves.{KeepsNothing, shelf_seen};
ghost use Rattle.dae_cli_options.specs.Names.{AreFiles};
ghost use Rattle.dae_compile.specs.Images.{IsCompilationOf};
ghost use Rattle.dae_cli_source_jobs.specs.Sources.{DueOfFiles, DueOfTexts, IsCompilationOfFiles, IsImageOfFiles};

use crate::fetching::fetch_all;
use crate::refusal_line;
use dae_base::{Items, Text};
use dae_cli_drive::Stop;
use dae_compile::{CompileError, Compiled, Options, compile};
use dae_image::Image;
use dae_io::Shelf;
use std::alloc::{AllocError, Global};

/// The image of source files.
pub fn image_of_files<F: Shelf>(
    alloc: Global,
    names: &[String],
    options: Options,
    shelf: &mut F,
) -> Result<Image, Stop>
    requires { AreFiles (map string_bytes names.now) }
    ensures ok { IfOk result (IsImageOfFiles (F.told shelf.old)
        (map string_bytes names.now) options) }
    ensures err { IfErr result (λ stop. DueOfFiles (map string_bytes names.now)
        (shelf_seen F.told F.count F.last F.given shelf.old shelf.new) options NoneOf
        (stop_answer stop)) }
    ensures kept { KeepsNothing (shelf_seen F.told F.count F.last F.given shelf.old shelf.new) }
    ensures counted { F.count shelf.old ≤ F.count shelf.new }
{
    match compilation_of_files(alloc, names, options, shelf) {
        Ok(compiled) => Ok(compiled.image),
        Err(stop) => Err(stop),
    }
}

/// The image of source files, and the report of its form.
pub fn compilation_of_files<F: Shelf>(
    alloc: Global,
    names: &[String],
    options: Options,
    shelf: &mut F,
) -> Result<Compiled, Stop>
    requires { AreFiles (map string_bytes names.now) }
    ensures ok { IfOk result (IsCompilationOfFiles (F.told shelf.old)
        (map string_bytes names.now) options) }
    ensures err { IfErr result (λ stop. DueOfFiles (map string_bytes names.now)
        (shelf_seen F.told F.count F.last F.given shelf.old shelf.new) options NoneOf
        (stop_answer stop)) }
    ensures kept { KeepsNothing (shelf_seen F.told F.count F.last F.given shelf.old shelf.new) }
    ensures counted { F.count shelf.old ≤ F.count shelf.new }
{
    let texts = fetch_all(alloc, names, shelf)?;
    compilation_of_texts(alloc, names, texts.as_slice(), options)
}

/// The image of texts whose files have these names, and the report of its form.
///
/// # Errors
///
/// The texts are refused, or memory is wanting.
pub fn compilation_of_texts(
    alloc: Global,
    names: &[String],
    texts: &[Vec<u8>],
    options: Options,
) -> Result<Compiled, Stop>
    requires files { AreFiles (map string_bytes names.now) }
    requires each { length names.now ≡ length texts.now }
    requires short { All IsShort texts.now }
    ensures ok { IfOk result (IsCompilationOf (texts_in texts.now)
        (map string_bytes names.now) options) }
    ensures err { IfErr result (λ stop. DueOfTexts (map string_bytes names.now)
        (texts_in texts.now) options NoneOf (stop_answer stop)) }
{
    let Ok(listed) = listed(alloc, names) else {
        return Err(Stop::Memory);
    };
    match compile(alloc, texts, listed, options) {
        Ok(compiled) => Ok(compiled),
        Err(CompileError::Memory) => Err(Stop::Memory),
        Err(error) => Err(Stop::told(2, refusal_line(alloc, names, &error))),
    }
}

// The names as an image lists them.
fn listed(alloc: Global, names: &[String]) -> Result<Items<Text>, AllocError>
    ensures listed { IfOk result (λ listed. listed ≡ map string_bytes names.now) }
    ensures utf8 { IfOk result (λ listed. list_all is_utf8 listed ≡ true) }
{
    let mut listed = Vec::new(alloc);
    for name in names {
        let name = name.as_str();
        listed.push(Text::from_str(alloc, name)?)?;
    }
    Ok(Items::from_vec(listed))
}
