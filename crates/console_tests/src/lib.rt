// The whole program, run over files and memory: the gate runs a program only once, and only to status 0.
#![tactic(auto)]

#[cfg(test)]
mod tests {
    use console::{Ending, start};
    use std::fs;
    use std::io::BufWriter;
    use std::process::Abort;
    use std::rt::Files;
    use std::test::Fail;

    // Runs the program on a command line, and checks what it writes.
    fn expect<R: Files + AllocGlobal + Abort>(
        rt: &R,
        line: &str,
        out: &str,
        err: &str,
        ending: Ending,
    ) -> Result<(), Fail> {
        let heap = rt.alloc();
        let mut words = Vec::new(heap);
        for word in line.split_whitespace() {
            words.push(String::from_str(heap, word)?)?;
        }
        let mut written = BufWriter::new(heap, Vec::new(heap))?;
        let mut complained = Vec::new(heap);
        let ended = start(rt, words.as_slice(), &mut written, &mut complained)?;
        assert_eq!(rt;
            String::from_utf8(written.into_inner()?)?.as_str(),
            out,
            "{line}"
        );
        assert_eq!(rt; String::from_utf8(complained)?.as_str(), err, "{line}");
        assert_eq!(rt; ended, ending, "{line}");
        Ok(())
    }

    #[test]
    fn inspects_pages(rt: HostRuntime) -> Result<(), Fail> {
        let mut pages = [0u8; 1030];
        pages[0] = 4;
        pages[8] = 5;
        pages[24] = 129;
        pages[512] = 64;
        fs::write(&rt, "some.pages", pages)?;
        let out =
            "page 1 lawful 1 objects 59 free\n  cell 1 type 5 sheet: number 0, first view 2:1, next sheet absent\npage 2 refused 13 3 2 0 63 0 64 63  # the head is above 63\npassed over: 6 bytes past the last page\ntotal 2 pages 1 lawful 1 objects 1 links\n";
        expect(&rt, "inspect some.pages", out, "", Ending::Done)
    }

    #[test]
    fn takes_another_catalogue(rt: HostRuntime) -> Result<(), Fail> {
        let mut pages = [0u8; 512];
        pages[0] = 3;
        pages[8] = 2;
        pages[16] = 65;
        fs::write(&rt, "other.pages", pages)?;
        fs::write(&rt, "other.types", "1 0\n\n  2 1\n")?;
        let out =
            "page 1 lawful 1 objects 60 free\n  cell 1 type 2: field 0 1:1, field 1 0\ntotal 1 pages 1 lawful 1 objects 1 links\n";
        expect(
            &rt,
            "inspect other.pages --catalogue other.types",
            out,
            "",
            Ending::Done,
        )
    }

    #[test]
    fn names_what_is_wrong(rt: HostRuntime) -> Result<(), Fail> {
        let gone = "balunsep: cannot read no/such: No such file or directory (os error 2)\n";
        expect(&rt, "inspect no/such", "", gone, Ending::Failed)?;
        fs::write(&rt, "bad.types", "3 6\n3 8\n")?;
        expect(
            &rt,
            "inspect x --catalogue bad.types",
            "",
            "balunsep: bad.types: line 2: refused by 4, the link mask has a bit at or above the size\n",
            Ending::Failed,
        )?;
        fs::write(&rt, "odd.types", "3 six\n")?;
        expect(
            &rt,
            "inspect x --catalogue odd.types",
            "",
            "balunsep: odd.types: line 1: 'six' is no number\n",
            Ending::Failed,
        )
    }

    #[test]
    fn names_misuse(rt: HostRuntime) -> Result<(), Fail> {
        expect(
            &rt,
            "inspect --speed 3 p",
            "",
            "balunsep: unknown option '--speed'; try 'balunsep --help'\n",
            Ending::Failed,
        )?;
        expect(
            &rt,
            "jump",
            "",
            "balunsep: unknown command 'jump'; try 'balunsep --help'\n",
            Ending::Failed,
        )?;
        expect(
            &rt,
            "inspect p --catalogue",
            "",
            "balunsep: option '--catalogue' wants a value\n",
            Ending::Failed,
        )?;
        expect(
            &rt,
            "inspect p q",
            "",
            "balunsep: unexpected argument 'q'\n",
            Ending::Failed,
        )
    }

    // One sheet at page 1, no check yet: over two pages the checks layer has one.
    #[test]
    fn seals_and_inspects_checks(rt: HostRuntime) -> Result<(), Fail> {
        let mut pages = [0u8; 1024];
        pages[0] = 4;
        pages[8] = 5;
        fs::write(&rt, "checks.pages", pages)?;
        let differs =
            "page 1 refused 12 8 1 64 63 0 64 63  # the page differs from its check\ntotal 1 pages 0 lawful 0 objects 0 links\n";
        expect(
            &rt,
            "inspect --store checks checks.pages",
            differs,
            "",
            Ending::Done,
        )?;
        expect(
            &rt,
            "seal checks.pages",
            "changed 1 cells\n",
            "",
            Ending::Done,
        )?;
        expect(
            &rt,
            "seal checks.pages",
            "changed 0 cells\n",
            "",
            Ending::Done,
        )?;
        assert!(rt; !fs::exists(&rt, "checks.pages.balunsep-new")?);
        let sealed =
            "page 1 lawful 1 objects 59 free\n  cell 1 type 5 sheet: number 0, first view absent, next sheet absent\ntotal 1 pages 1 lawful 1 objects 0 links\n";
        expect(
            &rt,
            "inspect --store checks checks.pages",
            sealed,
            "",
            Ending::Done,
        )
    }

    #[test]
    fn inspects_a_split(rt: HostRuntime) -> Result<(), Fail> {
        fs::write(&rt, "three.pages", [0u8; 1536])?;
        let out =
            "page 1 lawful 0 objects 63 free\npage 2 lawful 0 objects 63 free\npage 3 lawful 0 objects 63 free\ntotal 3 pages 3 lawful 0 objects 0 links\n";
        expect(
            &rt,
            "inspect --store split:2 three.pages",
            out,
            "",
            Ending::Done,
        )?;
        expect(
            &rt,
            "inspect --store split:9 three.pages",
            out,
            "",
            Ending::Done,
        )?;
        expect(
            &rt,
            "inspect three.pages --store frozen",
            out,
            "",
            Ending::Done,
        )?;
        expect(
            &rt,
            "inspect three.pages --store split:x",
            "",
            "balunsep: option '--store' does not take 'split:x'\n",
            Ending::Failed,
        )
    }
}
