// The entry that saves with a check: any word and any room may be handed to it. It answers, or refuses with a number of the table in
// docs/PROMISES.md, and its one promise fixes the answer and every entry of every lent buffer, for refusals too.
#![tactic(auto)]

ghost use Rattle.std.specs.Prelude.{◌≡◌};
ghost use Rattle.mark_files.specs.Save.{saved_as, save_checked_says};

use answers::Refusal;

// The file of a word in edition 2, at the front of the output: that of edition 1, short of two bytes at the end, and then sealed.
pub fn save_checked(word: &[u8], tables: &mut [u16], out: &mut [u8]) -> Result<usize, Refusal>
    ensures { saved_as result tables.new out.new
        ≡ save_checked_says word.now tables.old out.old }
{
    let room = out.len().saturating_sub(2);
    let size = mark_files::save(word, tables, &mut out[..room])?;
    editions::seal(out, size);
    Ok(size + 2)
}
