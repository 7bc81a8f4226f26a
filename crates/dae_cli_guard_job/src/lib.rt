// The job of the guard: the files of an image and of a certificate are fetched, and it is noted whether the image can't get
// stuck, or why the certificate doesn't show it. It takes the names of the files, and answers with the status.
#![tactic(auto)]

pub use guarding::guard;

mod guarding;
