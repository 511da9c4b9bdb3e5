//! The command line.
ghost use Rattle.std.specs.Prelude.{◌≡◌, map, string_bytes};
ghost use Rattle.std.specs.Option.{option_copied, option_map};
ghost use Rattle.gixp_planner.specs.Argv.{refs_file, plan_args};

// The file of `refs FILE`, or none for other words.
pub(crate) fn refs_file(words: &[String]) -> Option<&str>
    ensures { option_copied result ≡ refs_file (map (λ word. string_bytes word) words.now) }
{
    match words {
        [_program, command, file] if command.as_str() == "refs" => Some(file.as_str()),
        _ => None,
    }
}

// The folder and the refspecs of `plan DIR SPEC..`, with at least one refspec, or none for other words.
pub(crate) fn plan_args(words: &[String]) -> Option<(&str, &[String])>
    ensures { option_map (λ s. (s.0.now, map string_bytes s.1.now)) result ≡ plan_args (map (λ word. string_bytes word) words.now) }
{
    match words {
        [_program, command, folder, specs @ ..] if command.as_str() == "plan" => {
            if specs.is_empty() {
                return None;
            }
            Some((folder.as_str(), specs))
        }
        _ => None,
    }
}
