// A pile of layers, built and run: a split volume of two checks layers over images.
#![tactic(auto)]

#[cfg(test)]
mod tests {
    use checks::Checks;
    use fault::Fault;
    use split::Split;
    use std::process::Abort;
    use std::test::Fail;
    use store::{Image, Store};

    // Reads a page that must be refused.
    fn refused<S: Store>(
        rt: &impl Abort,
        store: &mut S,
        page: u64,
        cause: u32,
        layer: u32,
    ) -> Result<(), Fail> {
        let mut bytes = [7u8; 512];
        let refusal = Fault::marked(cause, layer, page);
        assert_eq!(rt; (*store).read(page, &mut bytes), Err(refusal));
        Ok(())
    }

    // Reads a page and checks its first byte.
    fn reads<S: Store>(rt: &impl Abort, store: &mut S, page: u64, first: u8) -> Result<(), Fail> {
        let mut bytes = [7u8; 512];
        assert_eq!(rt; (*store).read(page, &mut bytes), Ok(()));
        assert_eq!(rt; bytes[0], first);
        Ok(())
    }

    #[test]
    fn split_of_two_checks(rt: HostRuntime) -> Result<(), Fail> {
        let mut front = [0u8; 1024];
        let mut back = [0u8; 1536];
        back[0] = 9;
        let first = Checks::new(Image::new(&mut front));
        let second = Checks::new(Image::new(&mut back));
        let mut pile = Split::new(first, second);
        assert_eq!(rt; pile.count(), 3);
        reads(&rt, &mut pile, 1, 0)?;
        refused(&rt, &mut pile, 2, 12, 8)?;
        reads(&rt, &mut pile, 3, 0)?;
        refused(&rt, &mut pile, 4, 10, 7)?;
        let page = [5u8; 512];
        assert!(rt; pile.write(2, &page).is_ok());
        reads(&rt, &mut pile, 2, 5)?;
        reads(&rt, &mut pile, 1, 0)?;
        reads(&rt, &mut pile, 3, 0)
    }
}
