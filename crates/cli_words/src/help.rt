//! The texts of help.

/// What the program does.
pub const ABOUT: &str =
    "Runs scenarios of a plant in which three or five generators of IRIG-B time code feed readers, or devices with a
counter of their own, that vote; judges recordings of lines that carry it; and writes and reads frames of that code
(B004: pulse width, with the year, control functions and straight binary seconds).";

/// How the program is called.
pub const USAGE: &str = "irig [COMMAND]";

/// What follows the commands and options of the program.
pub const AFTER: &str =
    "Without a command it runs the scenario on standard input, as `irig run` runs one in a file.

Examples:
  $ irig < examples/leap_inserted.jsonl
  $ irig run examples/two_liars.jsonl --all
  $ irig flatten examples/leap_inserted.jsonl
  $ irig blame examples/one_liar.jsonl
  $ irig judge examples/one_clock_ahead.vcd
  $ irig frame 2016-12-31T23:59:59Z --pending=insert
  $ irig read \"$(irig frame 2016-12-31T23:59:59Z)\"
  $ irig explain 26

Exit statuses:
  0  done; that a frame is faulty, or a premise broken, is an answer too
  2  the command line, TIME or FRAME is not understood
  3  a line of the scenario is refused; the last line of the log says which, standard error why; or a recording is
     refused, and standard error says why
  4  FILE or standard input can't be read
  5  the output took no more
  6  out of memory
  7  a recording is undecided: most of its lines never agree on a second";

/// What follows the options of `run`.
pub const RUN_AFTER: &str =
    "FILE has one JSON value a line: the plant, then what happens in it, event by event. The log has a line for each
second that a reader announces, and with --all for each tick of a reader:
  EDGE READER TIME LOCK CAUSE
TIME is - where the reader announces nothing. The last line says whether the premises held under which each
announced second is the true one, or which line is refused.

Of a plant of devices it has a line for each second that a device announces, and with --all for each that it tells,
and one for each stamp:
  EDGE DEVICE TIME LOCK CAUSE OFF BOUND
  @INSTANT DEVICE TIME OFFSET BOUND
OFF says how many microseconds of its counter the told edge lies behind the true edge EDGE (+) or before it (-), and
BOUND how many it may at most, by what the device knows. A stamp names the instant so many seconds behind edge 0, as
OFFSET microseconds behind the edge of TIME; - - - if the device gives none. --ports adds nothing there.

With --ports the log has one more line for each tick, behind its other one:
   EDGE READER WORD WORD WORD
with a word for each port: ok, silence, poor:Q, fault:K:NAME with its place, or the second, or the word of a leap
second, that it claimed untruly. Lines that do not begin with a blank stay as they are.

Example:
  $ irig run examples/plain_minute.jsonl | tail -n 2
  60 relay 2016-06-15T12:01:00Z locked voted
  premises kept";

/// What follows the options of `flatten`.
pub const FLATTEN_AFTER: &str =
    "Of a plant of readers it writes the plant line as it stands, and then what comes to the readers' ports, event by
event, as lines of a scenario: the pulses of each frame, each tick, each restart. What happens at generators is
played and left out, so a log can be had of a recording, and a recording of a scenario: `irig run` prints the same
log for both, also with --all and --ports. It runs 1,000,000 lines at most.

Of a plant of devices it writes a row of each pulse that a device hears, when that has ended, below a row of names:
  device,port,rise_us,width_us
port is the number of the generator whose line the pulse comes by, rise_us the microsecond of true time behind edge 0
at which it rises at the device's end of that line, and width_us how many microseconds it lasts.

If a line of FILE is refused, the last line that is written says so, as that of a log does.

Example:
  $ irig flatten examples/plain_minute.jsonl | irig run - | tail -n 1
  premises kept";

/// What follows the options of `blame`.
pub const BLAME_AFTER: &str =
    "It plays the scenario as `irig run` does. A line names a port and the frames at which it told a reader one kind of
wrong: silent, faulty, poor, another second or another mark; with how far it was ahead or behind, what it told first,
and what the reader announced meanwhile. A line for each silence of a reader has its cause, and one for its untrue
seconds what they stand on. All come as soon as they end; `LC_ALL=C sort` puts them in order of their beginning. Then
there are the totals of each reader and port, and the last line of the log.

Of devices, a device stands for a reader and its lines for the ports. Below the totals of a device stands how far
the edges of its announced seconds were off, from the least to the most, and the greatest bound.

With --recorded ports have the names of their lines, and nothing is called untrue: of a recording nobody knows more
than what most lines told.

Example:
  $ irig blame examples/one_liar.jsonl | grep 'told another second'
  2017-06-30T23:59:52Z to 2017-06-30T23:59:55Z, edges 5 to 8: port 1 of relay told another second, 5 s ahead, first 2017-06-30T23:59:57Z; relay announced 4 seconds";

/// What follows the options of `judge`.
pub const JUDGE_AFTER: &str =
    "FILE is a recording of a logic analyser, of one, three or five lines of IRIG-B as pulses. It is heard as a device
hears lines that are up to 450 us off. First stand the lines that differ from most of them: in which seconds and from
where to where, by most lines and by the recorder's time, and by how much. Then the seconds on which most lines agree,
how far they are apart, when 0.000 s of the recording was in UTC, and what is on each line.

That a line differs is no proof that it is wrong: nobody knows more of a recording than what most lines told. If most
lines never agree, the first line says undecided. A frame that has a time quality of 8 or more has no vote.

FILE is a value change dump, or else a table: a line of names, and rows with commas of a time in the first column and
of levels, 0 or 1. In place of times a remark may say the rate, as ; Samplerate: 1 MHz. With --threshold the other
columns are volts: a line is high above so many, and keeps its level within a tenth of the most that it was ever off
the threshold. In a dump a threshold changes nothing.

If FILE ends with .cfg, it is the configuration of a disturbance record (COMTRADE), whose samples are in the .dat of
the same name beside it; if it ends with .cff, it has both. Its lines are digital channels, and with --threshold those
analog ones that --channels names, high above so many of their unit. The verdict then begins with how far the record's
stamp is off, the time of its first sample, and with what would explain it: a zone, or an exchanged day and month.

Example:
  $ irig judge examples/one_clock_ahead.vcd | head -n 1
  G1 differs: 18 s ahead in 3 seconds, 2026-11-24T09:30:04Z at 5.050 s to 2026-11-24T09:30:06Z at 7.050 s";

/// What follows the options of `frame`.
pub const FRAME_AFTER: &str =
    "A frame has 100 symbols, here in ten groups of ten: P a marker, 0 and 1. The offset that it carries is the one
that gives UTC: minus HALF_HOURS if it is added to the coded time, HALF_HOURS if it is subtracted. Daylight saving
is part of HALF_HOURS, and --dst sets its bit alone.

Example:
  $ irig frame 2016-12-31T23:59:59Z --local=11 --pending=insert
  P10010101P 100100100P 101000000P 100000000P 000000000P 111001000P 100011010P 100001000P 111010101P 011001000P";

/// What follows the options of `read`.
pub const READ_AFTER: &str =
    "It prints the time that the frame codes, if it codes one, and what a port tells of it that reads frames so:
  coded YYYY-DDD HH:MM:SS control W sbs S   the time, the control word, the binary seconds
  claim TIME MARK                           the UTC second, and what is said of a leap second:
                                            unspoken, no-leap, insert or delete
  poor Q                                    the time quality 10 to 15, which has no vote
  fault K NAME ..                           the number and the name of the first fault
  silence                                   no symbols

Example:
  $ irig read 'P10010101P 100100100P 101000000P 100000000P 000000000P 111001000P 100011010P 100001000P 111010101P 011001000P'
  coded 2017-001 05:29:59 control 17073 sbs 19799
  claim 2016-12-31T23:59:59Z insert";

/// What follows the options of `explain`.
pub const EXPLAIN_AFTER: &str =
    "Faults of a frame are what `irig read` prints; refusals end a run. docs/FAULTS.md has them all, and docs/OUTPUT.md
the words of a log: its causes, its locks, what a port told, and the premises of its last line. What stands behind
the colon of acquiring:2, holdover:17, poor:11 or fault:3:Pulse:12 may stay there. Capitals are as small letters.

Example:
  $ irig explain 27
  27 Version
  a version that this program does not know
  for example: {\"version\":5}
  what to do:  take 1, 2, 3 or 4";
