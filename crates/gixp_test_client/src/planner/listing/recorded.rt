//! Responses of git 2.39.5 to an `ls-refs` command with `symrefs`, `peel` and `unborn`, each with the output of `git
//! ls-remote --symref` for the same repository; and one of a namespace whose `HEAD` points outside it.

pub(crate) const PLAIN: (&[u8], &[u8]) = (
    b"00507257effbd41e1233eaae5744e614c5c728e3c979 HEAD symref-target:refs/heads/main\n\
    003d7257effbd41e1233eaae5744e614c5c728e3c979 refs/heads/main\n\
    0000",
    b"ref: refs/heads/main\tHEAD\n\
    7257effbd41e1233eaae5744e614c5c728e3c979\tHEAD\n\
    7257effbd41e1233eaae5744e614c5c728e3c979\trefs/heads/main\n",
);

pub(crate) const TAGGED: (&[u8], &[u8]) = (
    b"00507257effbd41e1233eaae5744e614c5c728e3c979 HEAD symref-target:refs/heads/main\n\
    004231466deb7450b8bb34a4f02f598e41e4e0f2408d refs/heads/feature/x\n\
    00407257effbd41e1233eaae5744e614c5c728e3c979 refs/heads/latin-\xe9\n\
    003d7257effbd41e1233eaae5744e614c5c728e3c979 refs/heads/main\n\
    003f7257effbd41e1233eaae5744e614c5c728e3c979 refs/heads/w\xc3\xb6rld\n\
    003a4f79d49e911d3ce89ca2b79cc37104da473efcc8 refs/notes/x\n\
    00647257effbd41e1233eaae5744e614c5c728e3c979 refs/remotes/origin/HEAD symref-target:refs/heads/main\n\
    00883acd1b259089a6a4c2b4010c8ff1f1fa8ecc6f1b refs/tags/alias symref-target:refs/tags/v1 peeled:7257effbd41e1233eaae5744e614c5c728e3c979\n\
    003d7257effbd41e1233eaae5744e614c5c728e3c979 refs/tags/light\n\
    006a3acd1b259089a6a4c2b4010c8ff1f1fa8ecc6f1b refs/tags/v1 peeled:7257effbd41e1233eaae5744e614c5c728e3c979\n\
    0071bf7abe679e8b792e58431e4e45da20f357d15b35 refs/tags/v1.nested peeled:7257effbd41e1233eaae5744e614c5c728e3c979\n\
    0000",
    b"ref: refs/heads/main\tHEAD\n\
    7257effbd41e1233eaae5744e614c5c728e3c979\tHEAD\n\
    31466deb7450b8bb34a4f02f598e41e4e0f2408d\trefs/heads/feature/x\n\
    7257effbd41e1233eaae5744e614c5c728e3c979\trefs/heads/latin-\xe9\n\
    7257effbd41e1233eaae5744e614c5c728e3c979\trefs/heads/main\n\
    7257effbd41e1233eaae5744e614c5c728e3c979\trefs/heads/w\xc3\xb6rld\n\
    4f79d49e911d3ce89ca2b79cc37104da473efcc8\trefs/notes/x\n\
    ref: refs/heads/main\trefs/remotes/origin/HEAD\n\
    7257effbd41e1233eaae5744e614c5c728e3c979\trefs/remotes/origin/HEAD\n\
    ref: refs/tags/v1\trefs/tags/alias\n\
    3acd1b259089a6a4c2b4010c8ff1f1fa8ecc6f1b\trefs/tags/alias\n\
    7257effbd41e1233eaae5744e614c5c728e3c979\trefs/tags/alias^{}\n\
    7257effbd41e1233eaae5744e614c5c728e3c979\trefs/tags/light\n\
    3acd1b259089a6a4c2b4010c8ff1f1fa8ecc6f1b\trefs/tags/v1\n\
    7257effbd41e1233eaae5744e614c5c728e3c979\trefs/tags/v1^{}\n\
    bf7abe679e8b792e58431e4e45da20f357d15b35\trefs/tags/v1.nested\n\
    7257effbd41e1233eaae5744e614c5c728e3c979\trefs/tags/v1.nested^{}\n",
);

pub(crate) const UNBORN: (&[u8], &[u8]) = (
    b"002funborn HEAD symref-target:refs/heads/trunk\n\
    0000",
    b"",
);

pub(crate) const DETACHED: (&[u8], &[u8]) = (
    b"003231466deb7450b8bb34a4f02f598e41e4e0f2408d HEAD\n\
    003d7257effbd41e1233eaae5744e614c5c728e3c979 refs/heads/main\n\
    0000",
    b"31466deb7450b8bb34a4f02f598e41e4e0f2408d\tHEAD\n\
    7257effbd41e1233eaae5744e614c5c728e3c979\trefs/heads/main\n",
);

pub(crate) const SHALLOW: (&[u8], &[u8]) = (
    b"00507257effbd41e1233eaae5744e614c5c728e3c979 HEAD symref-target:refs/heads/main\n\
    003d7257effbd41e1233eaae5744e614c5c728e3c979 refs/heads/main\n\
    006d7257effbd41e1233eaae5744e614c5c728e3c979 refs/remotes/origin/HEAD symref-target:refs/remotes/origin/main\n\
    00467257effbd41e1233eaae5744e614c5c728e3c979 refs/remotes/origin/main\n\
    0000",
    b"ref: refs/heads/main\tHEAD\n\
    7257effbd41e1233eaae5744e614c5c728e3c979\tHEAD\n\
    7257effbd41e1233eaae5744e614c5c728e3c979\trefs/heads/main\n\
    ref: refs/remotes/origin/main\trefs/remotes/origin/HEAD\n\
    7257effbd41e1233eaae5744e614c5c728e3c979\trefs/remotes/origin/HEAD\n\
    7257effbd41e1233eaae5744e614c5c728e3c979\trefs/remotes/origin/main\n",
);

pub(crate) const SPACED: &[u8] =
    b"00477257effbd41e1233eaae5744e614c5c728e3c979 HEAD symref-target:(null)\n\
    00477257effbd41e1233eaae5744e614c5c728e3c979 HEAD symref-target:(null)\n\
    003d7257effbd41e1233eaae5744e614c5c728e3c979 refs/heads/main\n\
    0000";
