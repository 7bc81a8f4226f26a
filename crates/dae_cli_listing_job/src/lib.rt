// The job of listing an image: its file is fetched and read, and its listing is put on out. It takes the name of the file, and
// answers with the status.
#![tactic(auto)]

pub use listing::dis;

mod listing;
