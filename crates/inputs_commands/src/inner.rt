// A command's words, and one command more. Inner functions: they ask for one of 16 inputs, and for room.
ghost use Rattle.std.specs.Prelude.{◌≡◌, ◌<◌};
ghost use Rattle.inputs_commands.specs.Sending.{input_of, words_of, CanSend, Sends};

use super::{Command, Commands};

impl Command {
    // The kind and the input, then channels, forget as 0 or 1, or samples. Document 01 numbers the kinds, and leaves unused words 0.
    fn words(self) -> [u32; 3]
        requires { input_of self < 16 }
        ensures { result ≡ words_of self }
    {
        match self {
            Command::SetInput { input, channels } => [1, input as u32, channels],
            Command::ClearInput { input, forget } => [2, input as u32, forget as u32],
            Command::SetDelay { input, samples } => [3, input as u32, samples],
        }
    }
}

impl Commands<'_> {
    pub fn send(&mut self, command: Command)
        requires { CanSend (input_of command) self.old }
        ensures { Sends command self.old self.new }
    {
        let [kind, input, word] = command.words();
        self.words[self.used] = kind;
        self.words[self.used + 1] = input;
        self.words[self.used + 2] = word;
        self.used += 3;
    }
}
