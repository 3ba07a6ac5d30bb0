// Words, as lines print them.
use paging::MARK;
use std::io;

// Behind a colon; the mark as -. `trial_bundle` has the same: a crate for both would take more text, a promise and edits, than these lines.
pub(crate) fn words(rt: &impl Print, words: &[u32]) -> io::Result<()> {
    print!(rt; " :")?;
    for word in words {
        match *word {
            MARK => print!(rt; " -")?,
            word => print!(rt; " {word}")?,
        }
    }
    Ok(())
}
