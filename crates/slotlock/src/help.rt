// What `slotlock --help` says.
pub const HELP: &str = "\
slotlock: runs schedules and loads on a slot-lock board

usage: slotlock COMMAND [OPTIONS] [FILE]

  run [--show] [FILE]   a table of every word, its answer and what it did; with --show the
                        board after each word; at the end the serial order of the decided
                        operations, the board and the tallies
  answers [FILE]        for each word one line LETTER VALUE (w under way, y yes, n no,
                        t tidied, r refused), then the line 'held H free F'
  compare [FILE]        the answers with all three reclaimers side by side, the first
                        difference marked, and the tallies of each
  load SCHEME MODE KEYS TURNS [--items numbers|bytes] [--sessions S] [--cells C] [--seed N]
                        a seeded load: its line with the check sum, then its figures; times on
                        standard error. SCHEME is hazard, epoch or quiescent, MODE is whole,
                        mixed or junk. Else: numbers, 8 sessions, 256 cells, seed
                        88172645463325252
  fuzz SEED COUNT       gives COUNT damaged texts to the reader: how many it read and how many
                        it refused, by message
  help, --help          this text

FILE is a schedule. Left out or -, it is standard input.

A schedule has a line for each of these, in any order, before the first word:
  reclaimer hazard            or epoch, quiescent
  sessions 3                  1 to 8 can be opened
  cells 4                     1 to 256 can be opened
  items numbers 7 9           or: items bytes \"MSCU7\" x00ff   (up to 11 bytes each)
and then word lines, S being a session from 0 and P an item's place from 0:
  insert S P, delete S P, contains S P, push S P, pop S      begin an operation
  step S                      its next step
  steps S N                   N steps
  finish S                    steps until the operation completes
  tidy                        collects all that can be given back
  0xa1000000                  a raw word
A # starts a comment.

Status: 0, also where words were refused. 1 where the text is bad, the file cannot be read,
the board was not opened (answers, run and compare print 'refused N': 2 no memory, 3 sizes out
of range, 4 a byte string of more than 11 bytes) or the command line is wrong; messages go to
standard error.
";
