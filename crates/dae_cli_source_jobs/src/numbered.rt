// The job `big`: the source of a number is compiled, and its image is run. Nothing is fetched.
ghost use Rattle.std.specs.Prelude.{◌≡◌, ◌≤◌, [], ◌∷◌, IfErr, IfOk, length, map, string_bytes};
ghost use Rattle.std.specs.List.{All};
ghost use Rattle.dae_accept.specs.Read.{IsShort, texts_in};
ghost use Rattle.dae_big.specs.Texts.{big_name, big_text};
ghost use Rattle.dae_cli_drive.specs.Images.{DueOfImage};
ghost use Rattle.dae_cli_drive.specs.Puts.{GivesDue, sinks, stop_answer};
ghost use Rattle.dae_cli_drive.specs.ImageFiles.{NoneOf};
ghost use Rattle.dae_compile.specs.Images.{IsImageOf};
ghost use Rattle.dae_cli_source_jobs.specs.Numbers.{DueOfBig};

use crate::options::SourceOptions;
use crate::sources::compilation_of_texts;
use dae_big::{big_name, big_source};
use dae_cli_drive::{Stop, run_image};
use dae_compile::Options;
use dae_image::Image;
use dae_io::Sink;
use std::alloc::{AllocError, Global};

/// Compiles the source of a number, at most 900, runs its image, and answers with the status.
pub fn big<O: Sink, N: Sink>(
    alloc: Global,
    number: u16,
    options: &SourceOptions,
    out: &mut O,
    note: &mut N,
) -> u8
    requires { number ≤ 900 }
    ensures gives { GivesDue
        (DueOfBig number options.now.compiled (λ image. DueOfImage image options.now.run)) result
        (sinks (O.seen out.old) (N.seen note.old)) (sinks (O.seen out.new) (N.seen note.new)) }
    ensures unopened { result ≡ 7 → O.seen out.new ≡ O.seen out.old }
{
    match image_of_big(alloc, number, options.compiled) {
        Ok(image) => run_image(alloc, &image, &options.run, out, note),
        Err(stop) => stop.tell(note),
    }
}

// The image of the source of a number; or the source is refused, or memory is wanting.
fn image_of_big(alloc: Global, number: u16, options: Options) -> Result<Image, Stop>
    requires { number ≤ 900 }
    ensures ok { IfOk result
        (IsImageOf (big_text number ∷ []) (big_name ∷ []) options) }
    ensures err { IfErr result (λ stop. DueOfBig number options NoneOf (stop_answer stop)) }
{
    let Ok((names, texts)) = source(alloc, number) else {
        return Err(Stop::Memory);
    };
    match compilation_of_texts(alloc, names.as_slice(), texts.as_slice(), options) {
        Ok(compiled) => Ok(compiled.image),
        Err(stop) => Err(stop),
    }
}

// The name of the source's file, and the source.
fn source(alloc: Global, number: u16) -> Result<(Vec<String>, Vec<Vec<u8>>), AllocError>
    requires { number ≤ 900 }
    ensures names { IfOk result (λ r. map string_bytes r.0.items ≡ big_name ∷ []) }
    ensures texts { IfOk result (λ r. texts_in r.1.items ≡ big_text number ∷ []) }
    ensures short { IfOk result (λ r. All IsShort r.1.items) }
{
    let mut names = Vec::new(alloc);
    names.push(String::from_str(alloc, big_name())?)?;
    let mut texts = Vec::new(alloc);
    texts.push(big_source(alloc, number)?)?;
    Ok((names, texts))
}
