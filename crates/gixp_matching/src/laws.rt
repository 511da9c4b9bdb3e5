//! Laws of the definitions that contracts cite. The functions do nothing: a caller that cites a law calls one.
ghost use Rattle.gixp_matching.specs.RefspecLaws.{MatchesMiddle, MatchesOnly, NamesAreLocal, NamesIncrease, MappingsHaveOrigins};
ghost use Rattle.gixp_matching.specs.Leaving.{KeepsAnswers};

/// A server that leaves out refs whose names begin with none of the prefixes that [`expand_prefixes`] adds for the
/// refspecs changes no conflict and no fix, and of the mappings only the indices of their refs (gitprotocol-v2,
/// `ref-prefix`). The client may send each prefix once or more often.
///
/// [`expand_prefixes`]: gixp_refspec::RefSpecRef::expand_prefixes
pub fn filtering_keeps_answers()
    ensures { KeepsAnswers }
{}

/// A pattern matches exactly the names made of its front, any middle and its back. The local names in byte order are
/// exactly the mappings' local names, each once.
pub fn definitions_mean_what_they_say()
    ensures middle { MatchesMiddle }
    ensures only { MatchesOnly }
    ensures names { NamesAreLocal }
    ensures increase { NamesIncrease }
{}

/// The origin of a mapping: its `spec_index` is the index of one of the refspecs. Either its item is the first ref
/// with its name, which begins with a prefix of that refspec; or it has no item, and that refspec names its id.
pub fn mappings_have_origins()
    ensures { MappingsHaveOrigins }
{}
