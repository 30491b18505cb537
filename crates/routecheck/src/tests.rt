// What judging, rehearsals and rule texts come to in small cases; and of the command line its words, the text of --help, what is
// said of refused plans and scripts, what scripts are answered, and the status that the program exits with.

mod command;
mod help;
mod networks;
mod refused;
mod rehearsals;
mod rule_texts;
mod scripts;
mod sessions;
mod status;
