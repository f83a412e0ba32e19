// The kinds of asks that a gate is told of, with their numbers written out.
ghost use Rattle.std.specs.Prelude.{◌≡◌};
ghost use Rattle.gl_threads.specs.declared.kinds.TheConstants.{ALLOC, BEGIN, COMMIT, END, ENTER, EXIT, FORK, INPUT, JOIN, LOOK, PLAIN_READ, PLAIN_WRITE, PRINT, TX_BEGIN, VOLATILE_READ, VOLATILE_WRITE};

/// Each kind is the number that is stated for it.
pub fn kinds_are_stated()
    ensures begin { BEGIN ≡ 1 }
    ensures end { END ≡ 2 }
    ensures enter { ENTER ≡ 3 }
    ensures exit { EXIT ≡ 4 }
    ensures volatile_read { VOLATILE_READ ≡ 5 }
    ensures volatile_write { VOLATILE_WRITE ≡ 6 }
    ensures fork { FORK ≡ 7 }
    ensures join { JOIN ≡ 8 }
    ensures alloc { ALLOC ≡ 9 }
    ensures print { PRINT ≡ 10 }
    ensures input { INPUT ≡ 11 }
    ensures plain_read { PLAIN_READ ≡ 20 }
    ensures plain_write { PLAIN_WRITE ≡ 21 }
    ensures commit { COMMIT ≡ 22 }
    ensures look { LOOK ≡ 23 }
    ensures tx_begin { TX_BEGIN ≡ 24 }
{}
