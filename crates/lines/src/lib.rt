#![tactic(auto)]

pub mod command;
pub mod line;
pub mod plan;
pub mod read;
pub mod reply;

#[cfg(test)]
mod tests {
    use crate::command::*;
    use crate::line::Line;
    use crate::plan::Plan;
    use crate::read::read;
    use crate::reply::{Counts, Reply, push_reply};
    use std::test::Fail;

    #[test]
    fn commands(rt: HostRuntime) {
        assert_eq!(rt; read(b"d 0 1"), Ok(Command::Distance(0, 1)));
        assert_eq!(rt; read(b"d 99999 99999"), Ok(Command::Distance(99999, 99999)));
    }

    #[test]
    fn no_commands(rt: HostRuntime) {
        let lines = [
            "",
            "d",
            "d 1",
            "d 1 ",
            "d 00 1",
            "d  1 2",
            " d 1 2",
            "d 1 2 ",
            "d 1 2 3",
            "D 1 2",
            "d 100000 1",
            "d 1 +2",
            "d\t1 2",
            "d 1 2\r",
        ];
        for line in lines {
            assert_eq!(rt; read(line.as_bytes()), Err(NotACommand), "{}", line);
        }
        assert_eq!(rt; read(b"d 1 \xff"), Err(NotACommand));
    }

    #[test]
    fn replies(rt: HostRuntime) -> Result<(), Fail> {
        let mut line = Line::new();
        for b in b"d 7 200 and more than is kept" {
            line.push(*b);
        }
        assert_eq!(rt; line.bytes(), b"d 7 200 and more".as_slice());
        let mut out = String::new(rt.alloc());
        push_reply(&mut out, Reply::Distance(Some(200)))?;
        push_reply(&mut out, Reply::Distance(None))?;
        push_reply(&mut out, Reply::No(NotACommand.number()))?;
        push_reply(&mut out, Reply::BookNo(12))?;
        assert_eq!(rt; out.as_str(), "200\nnever\nno 30\nbook no 12\n");
        Ok(())
    }

    #[test]
    fn plans(rt: HostRuntime) -> Result<(), Fail> {
        let most = Counts {
            opened: u64::MAX,
            dropped: 7,
        };
        let plan = Plan::new(&[0, u64::MAX]);
        let text = format!(in rt.alloc(); "plan{plan} {most}")?;
        assert_eq!(rt;
            text.as_str(),
            "plan 0 18446744073709551615 opened 18446744073709551615 dropped 7"
        );
        Ok(())
    }
}
