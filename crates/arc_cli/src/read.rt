//! Reading words.
ghost use Rattle.std.specs.Prelude.{◌≡◌, true, length, IfErr, IfOk, map, option_map, string_bytes};
ghost use Rattle.arc_cli.specs.declared.task.WordsEnd.TheVariants.{Memory};
ghost use Rattle.arc_cli.specs.Forms.{IsWithin, Reads, drill_of, gen_of, is_drill, path_in, task_of};

use crate::forms::{is_drill, size_of};
use crate::{Task, WordsEnd};
use clap::{Arg, Command};
use std::alloc::Global;

/// The task that the words after the program's name ask for. `Usage` comes exactly where they have none of the forms.
#[tactic(auto, unfolding(crate::specs::Forms::task_of))]
pub fn read_words(alloc: Global, words: &[String]) -> Result<Task, WordsEnd>
    ensures exact { Reads result (task_of (map string_bytes words.now)) }
    ensures within { IfOk result IsWithin }
{
    let [command, fields @ ..] = words else {
        return Err(WordsEnd::Usage);
    };
    match command.as_str() {
        "drill" => read_drill(alloc, fields),
        "gen" => read_gen(fields),
        _ => Err(WordsEnd::Usage),
    }
}

/// `drill` or `drill FILE`, behind the first word.
#[tactic(auto, unfolding(crate::specs::Forms::drill_of))]
fn read_drill(alloc: Global, fields: &[String]) -> Result<Task, WordsEnd>
    ensures exact { Reads result (drill_of (map string_bytes fields.now)) }
    ensures within { IfOk result IsWithin }
{
    match fields {
        [] => Ok(Task::Drill { script: None }),
        [_] => read_file(alloc, fields),
        _ => Err(WordsEnd::Usage),
    }
}

/// `drill FILE`, behind the first word.
#[tactic(auto, using(crate::proofs::Positional::one_file), unfolding(crate::specs::Forms::drill_of))]
fn read_file(alloc: Global, fields: &[String]) -> Result<Task, WordsEnd>
    requires { length fields.now ≡ 1 }
    ensures exact { Reads result (drill_of (map string_bytes fields.now)) }
    ensures within { IfOk result IsWithin }
{
    if !is_drill(fields) {
        return Err(WordsEnd::Usage);
    }
    match file_in(alloc, fields)? {
        Some(path) => Ok(Task::Drill {
            script: Some(String::from_str(alloc, path)?),
        }),
        None => Ok(Task::Drill { script: None }),
    }
}

/// The path behind `drill`, where there is one.
fn file_in<'a>(alloc: Global, fields: &'a [String]) -> Result<Option<&'a str>, WordsEnd>
    requires { is_drill (map string_bytes fields.now) ≡ true }
    ensures exact { IfOk result (λ path. option_map (λ word. word.now) path ≡ path_in (map string_bytes fields.now)) }
    ensures end { IfErr result (λ end. end ≡ Memory) }
{
    let file = Arg::new(alloc, "FILE");
    let command = Command::new(alloc, "drill").no_binary_name(true).arg(file)?;
    match command.try_get_matches_from(fields) {
        Ok(matches) => Ok(matches.get_str("FILE")),
        Err(_) => Err(WordsEnd::Memory),
    }
}

/// `gen N`, behind the first word.
#[tactic(auto, unfolding(crate::specs::Forms::gen_of))]
fn read_gen(fields: &[String]) -> Result<Task, WordsEnd>
    ensures exact { Reads result (gen_of (map string_bytes fields.now)) }
    ensures within { IfOk result IsWithin }
{
    let [size] = fields else {
        return Err(WordsEnd::Usage);
    };
    match size_of(size.as_str()) {
        Some(n) => Ok(Task::Gen { n }),
        None => Err(WordsEnd::Usage),
    }
}
