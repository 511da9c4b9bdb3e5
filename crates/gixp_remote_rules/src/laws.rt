//! Theorems about what git's own program for HTTP gets. Each is a function without a body. Its
//! contract is the theorem.
ghost use Rattle.std.specs.Prelude.{◌≡◌, ℕ, List, ◌++◌, flat_map};
ghost use Rattle.gixp_remote_rules.specs.Conversation.{ConversationValue};
ghost use Rattle.gixp_remote_rules.specs.RelayRun.{relayed_by, all_handled, accepted_options};

/// Each option that the helper accepts is passed on once, in git's order, or waits at the end for
/// the next list or batch. Nothing else is passed on as an option.
pub fn options_are_passed_on_once()
    ensures { (t : ConversationValue) (lines : List (List ℕ))
        → t.option_lines ++ accepted_options t lines
        ≡ flat_map (λ r. r.options) (relayed_by t lines) ++ (all_handled t lines).option_lines }
{}
