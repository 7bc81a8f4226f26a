// The job `dis`: the listing of the image of a file.
ghost use Rattle.std.specs.Prelude.{◌≡◌, ◌≢◌, [], ◌∷◌, IfErr, IfOk};
ghost use Rattle.dae_io.specs.Sinks.{SinkState};
ghost use Rattle.dae_cli_drive.specs.Puts.{Gives, GivesDue, Out, answer, sinks, stop_answer};
ghost use Rattle.dae_cli_drive.specs.Shelves.{KeepsNothing, shelf_seen};
ghost use Rattle.dae_cli_listing_job.specs.Listings.{DueOfListing, DueOfShortImageFile};

use dae_cli_drive::{Stop, image_of, text_of_file};
use dae_io::{Shelf, Sink};
use dae_listing::disassemble;
use std::alloc::Global;

/// How many bytes the file of an image may have that is listed.
const MOST_LISTED: u32 = 16_777_216;

/// Puts the listing of the image of a file on out, in one put, and answers with the status.
pub fn dis<F: Shelf, O: Sink, N: Sink>(
    alloc: Global,
    name: &str,
    shelf: &mut F,
    out: &mut O,
    note: &mut N,
) -> u8
    ensures gives { GivesDue (DueOfShortImageFile name.now
        (shelf_seen F.told F.count F.last F.given shelf.old shelf.new) DueOfListing) result
        (sinks (O.seen out.old) (N.seen note.old)) (sinks (O.seen out.new) (N.seen note.new)) }
    ensures kept { KeepsNothing (shelf_seen F.told F.count F.last F.given shelf.old shelf.new) }
    ensures unopened { result ≡ 7 → O.seen out.new ≡ O.seen out.old }
{
    match listing_of_file(alloc, name, shelf) {
        Ok(listing) => put_listing(out, listing.as_slice()),
        Err(stop) => stop.tell(note),
    }
}

/// The listing of the image of a file, which has at most so many bytes as are listed. It is asked for one byte more.
///
/// # Errors
///
/// The file isn't got, it is longer, its bytes are no image, or memory is wanting: the first of these in that order.
fn listing_of_file<F: Shelf>(alloc: Global, name: &str, shelf: &mut F) -> Result<Vec<u8>, Stop>
    ensures ok { IfOk result (λ listing. DueOfShortImageFile name.now
        (shelf_seen F.told F.count F.last F.given shelf.old shelf.new) DueOfListing
        (answer 0 (Out listing.items ∷ []))) }
    ensures err { IfErr result (λ stop. DueOfShortImageFile name.now
        (shelf_seen F.told F.count F.last F.given shelf.old shelf.new) DueOfListing
        (stop_answer stop)) }
    ensures kept { KeepsNothing (shelf_seen F.told F.count F.last F.given shelf.old shelf.new) }
{
    let bytes = text_of_file(alloc, name, MOST_LISTED, "refused image-too-long\n", shelf)?;
    let image = image_of(alloc, bytes.as_slice())?;
    match disassemble(alloc, &image) {
        Ok(listing) => Ok(listing),
        Err(_) => Err(Stop::Memory),
    }
}

/// Puts a whole listing on out, and answers with 0, or with 6 where the put failed.
fn put_listing<O: Sink>(out: &mut O, listing: &[u8]) -> u8
    ensures gives { (note : SinkState) → Gives (answer 0 (Out listing.now ∷ [])) result
        (sinks (O.seen out.old) note) (sinks (O.seen out.new) note) }
    ensures has_memory { result ≢ 7 }
{
    match out.put(listing) {
        Ok(()) => 0,
        Err(_) => 6,
    }
}
