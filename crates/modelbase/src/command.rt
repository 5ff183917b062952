// The words after the program's name.
use crate::failure::Failure;

#[derive(Clone, Copy)]
pub enum Command<'a> {
    New { file: &'a str, lines: usize },
    Check { file: &'a str },
    Run { file: &'a str },
}

// What is asked for; how many lines a file may have is not judged here.
pub fn read_command(words: &[String]) -> Result<Command<'_>, Failure> {
    let [command, file, rest @ ..] = words else {
        return Err(Failure::Usage);
    };
    let file = file.as_str();
    match (command.as_str(), rest) {
        ("new", [lines]) => {
            let lines = lines.as_str().parse().map_err(|_| Failure::Lines)?;
            Ok(Command::New { file, lines })
        }
        ("check", []) => Ok(Command::Check { file }),
        ("run", []) => Ok(Command::Run { file }),
        _ => Err(Failure::Usage),
    }
}
