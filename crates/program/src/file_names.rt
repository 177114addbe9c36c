//! The names of files among a program's words.

ghost use Rattle.std.specs.Prelude.{◌≡◌, ℕ, List, Option, true, false, IfErr, IfOk, option_map};
ghost use Rattle.clap.specs.Words.{first_of, found_of, rows_of};
ghost use Rattle.program.specs.FileNames.{IsFile, IsWanted, is_no_name};

use clap::ArgMatches;

/// The word can't be the name of a file.
#[derive(Clone, Copy, Debug, PartialEq, Eq, Drop)]
pub struct BadName;

/// The name of a file, which is not empty and does not begin with `-`.
fn file_name(name: &str) -> Result<&str, BadName>
    ensures found { IfOk result (λ n. (n.now ≡ name.entry.now) × (is_no_name name.entry.now ≡ false)) }
    ensures refused { IfErr result (λ _. is_no_name name.entry.now ≡ true) }
{
    match name.as_bytes().first() {
        None | Some(b'-') => Err(BadName),
        Some(_) => Ok(name),
    }
}

/// The file of that name among the words, if there is one.
pub fn file<'a>(found: &ArgMatches<'a>, id: &str) -> Result<Option<&'a str>, BadName>
    ensures found { IfOk result (λ name. IsFile (first_of id.now (rows_of (found_of found.now))) (option_map (λ n. n.now) name)) }
    ensures refused { IfErr result (λ _. (name : Option (List ℕ)) → IsFile (first_of id.now (rows_of (found_of found.now))) name → ⊥) }
{
    match found.get_str(id) {
        Some(name) => Ok(Some(file_name(name)?)),
        None => Ok(None),
    }
}

/// A file that has to be among the words.
pub fn wanted_file<'a>(found: &ArgMatches<'a>, id: &str) -> Result<&'a str, BadName>
    ensures found { IfOk result (λ name. IsWanted (first_of id.now (rows_of (found_of found.now))) name.now) }
    ensures refused { IfErr result (λ _. (name : List ℕ) → IsWanted (first_of id.now (rows_of (found_of found.now))) name → ⊥) }
{
    match file(found, id)? {
        Some(name) => Ok(name),
        None => Err(BadName),
    }
}
