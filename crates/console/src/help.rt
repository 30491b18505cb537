// The text of --help.
// Two screens of 24 lines: judging a plan, and playing a script on a board.
pub const HELP: &str = "Usage: routecheck [--explain] [PLAN]
Judges the rules of a plan at every entry of its network, on routes of every
length, under all 64 settings of its conditions. PLAN names a plan file; with
no name, or with -, the plan is read from standard input.

It prints a line for each rule, or one line if the plan is refused:
  RULE holds ROUNDS                 it holds at every entry in every setting
  RULE breaks PLACE SETTING ROUNDS  it breaks at the entry PLACE in SETTING
  refused NUMBER RULE BYTE          a fault at this byte of the rule's text
  refused NUMBER - BYTE             a fault at this byte of the file
Rules and places count from 0. SETTING is the sum of 1 if c0 is on, 2 if c1 is
on, 4 if c2 is on, and so on to 32 for c5. ROUNDS is how long judging took.
Standard error says in words why a plan is refused.

Options:
  --explain  adds below each line the rule's text, what it says in words, and
             if it breaks the route that breaks it, position by position
  --help     prints this

Exit status: 0 if every rule was judged, whether it holds or breaks; 1 if the
plan is refused or cannot be read, or the command line is wrong.
Limits: 256 places, 4096 bindings, 8 rules of at most 200 bytes, marks m0 (for
entries) to m31, conditions c0 to c5; a file of at most 51816 bytes.

Usage: routecheck board [--explain] PLAN SCRIPT
Tries changes before anybody makes them. The board has places of its own, from
0 on, in front of those of PLAN, whose rules play no part. SCRIPT names a file
of at most 1048576 bytes with a call a line; # begins a comment. Each call but
room is answered by a line:
  open NUMBER OWN MARKS..      ok; it comes first, and OWN marks follow
  room MAIN SPARE STEPS        lengths of the lists that are lent from here on
  adopt RULE                   ok ROUNDS, and the rule has to stay true
  adopt-rows ROWS (OP A B)..   the same, of a rule as a table
  propose CHANGE               ok NUMBER SERIAL, the ticket of the change
  revise NUMBER SERIAL CHANGE  ok NUMBER SERIAL, for another change in its place
  admit NUMBER SERIAL          ok ROUNDS, and the change stands
  withdraw NUMBER SERIAL       ok, and the change is dropped
  proposals                    ok 1 if a change is proposed, else ok 0
CHANGE is bind FROM TO ON OFF, unbind N or recondition N ON OFF, with ON and
OFF as SETTING above. refused NUMBER says why a call is not done; if a rule
breaks it is refused 25 RULE ENTRY SETTING none, or in place of none the route
as reaches, rests or returns:I and its positions PLACE,SETTING. --explain says
this in words.
Exit status: 0 if no call was refused, 1 if some call was; 2 if the plan, the
script or the command line is not accepted, or the board not opened.
";
