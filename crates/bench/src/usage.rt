// How the bench is used.

pub const USAGE: &str = "Usage:
  bench                            pulls one frame through the whole chain
  bench capture FILE               reads the windows of a capture, one a line: the number of channels, a space, the chips
  bench frames MODE COUNT [FILE]   writes a capture of COUNT built frames of MODE, with the file's octets in them
  bench sample                     reads the windows of a small capture with faults in it
  bench script [FILE]              runs a script of calls from a file or standard input, and prints one answer a line
  bench speed                      measures how long coding, mending, building and reading take
  bench help                       prints this
";
