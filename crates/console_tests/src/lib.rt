// Tests of what no program calls: the consoles' functions over texts of any length, and the parts in a memory of any size. What is expected is what the second program of tests/ prints.
#![tactic(auto)]

#[cfg(test)]
mod tests {
    use console::form::Lines;
    use console::{parts, programs};
    use reading::read;
    use std::test::Fail;

    // A job, its laid job and the line of its counts. The first two lines of the laid job are the front, three more the first part, its Hadamard last, and one is the last part.
    const JOB: &'static [u8] = b"q\t2\ne\t0\t1\nn\t0\nr\t0\t5\nh\t1\nc\t0\t1\n";

    const LAID: &'static [u8] = b"q\t2\ne\t0\t1\nr\t0\t65531\nn\t0\nh\t1\nc\t0\t1\n";

    const COUNTED: &'static [u8] = b"s\t1\t1\t1\n";

    const FRONT: usize = 10;

    const PHASE: u32 = 10;

    // No text of this length is a job.
    const LONG: usize = 70000;

    const TOO_LONG: &'static [u8] = b"x\t11\t0\n";

    // Couplers and a circuit, and what is laid.
    const CHIP: &'static [u8] = b"e\t0\t1\n";

    const CIRCUIT: &'static [u8] =
        b"OPENQASM 3.0;\ninclude \"stdgates.inc\";\nqubit[2] q;\ngphase(pi/8);\ncx q[0],q[1];\nrz(pi/2) q[1];\nh q[0];\n";

    const LAID_CIRCUIT: &'static [u8] =
        b"OPENQASM 3.0;\ninclude \"stdgates.inc\";\nqubit[2] q;\ncx q[0],q[1];\np(16384*pi/32768) q[1];\nh q[0];\ngphase(122880*pi/65536);\n";

    #[test]
    fn texts_are_laid(rt: HostRuntime) -> Result<(), Fail> {
        let long = [0u8; LONG];
        let cases: [(&[u8], &[u8], u32); 2] = [(JOB, LAID, PHASE), (&long, TOO_LONG, 0)];
        for (text, laid, phase) in cases {
            let mut room = [0u8; 64];
            let mut writer = &mut room[..];
            let shares = programs::write_laid(&mut writer, text)?;
            let left = writer.len();
            assert_eq!(rt; shares, phase);
            assert_eq!(rt; left.checked_add(laid.len()), Some(64));
            assert!(rt; room.starts_with(laid));
        }
        Ok(())
    }

    #[test]
    fn texts_are_counted(rt: HostRuntime) -> Result<(), Fail> {
        let long = [0u8; LONG];
        let cases: [(&[u8], &[u8]); 2] = [(JOB, COUNTED), (&long, TOO_LONG)];
        for (text, counted) in cases {
            let mut room = [0u8; 64];
            let mut writer = &mut room[..];
            programs::write_counts(&mut writer, text)?;
            let left = writer.len();
            assert_eq!(rt; left.checked_add(counted.len()), Some(64));
            assert!(rt; room.starts_with(counted));
        }
        Ok(())
    }

    #[test]
    fn circuits_are_laid(rt: HostRuntime) -> Result<(), Fail> {
        let long = [0u8; LONG];
        let cases: [(&[u8], &[u8]); 2] = [(CIRCUIT, LAID_CIRCUIT), (&long, TOO_LONG)];
        for (text, laid) in cases {
            let mut room = [0u8; 256];
            let mut writer = &mut room[..];
            qasm_console::programs::write_laid(&mut writer, CHIP, text)?;
            let left = writer.len();
            assert_eq!(rt; left.checked_add(laid.len()), Some(256));
            assert!(rt; room.starts_with(laid));
        }
        Ok(())
    }

    // The records of JOB.
    fn records(couplers: &mut [u32; 1], gates: &mut [u32; 4]) -> Option<usize> {
        let job = read::read(JOB, &mut *couplers, &mut *gates).ok()?;
        Some(job.qubits)
    }

    #[test]
    fn parts_are_written(rt: HostRuntime) -> Result<(), Fail> {
        let mut couplers = [0u32; 1];
        let mut gates = [0u32; 4];
        let n = records(&mut couplers, &mut gates).ok_or("JOB is refused")?;
        let mut room = [0u8; 64];
        let mut out = [0u8; 27];
        let mut writer = &mut room[..];
        let shares = programs::write_parts(
            &mut writer,
            Lines,
            n,
            &couplers,
            &gates,
            0,
            0,
            &mut out,
        )?;
        let left = writer.len();
        let parts = LAID.get(FRONT..).ok_or("no parts")?;
        assert_eq!(rt; shares, PHASE);
        assert_eq!(rt; left.checked_add(parts.len()), Some(64));
        assert!(rt; room.starts_with(parts));
        Ok(())
    }

    // In 11 bytes there is room for the first line of the part, which has 10, and for no other.
    #[test]
    fn what_fits_of_a_part_is_printed(rt: HostRuntime) -> Result<(), Fail> {
        let mut couplers = [0u32; 1];
        let mut gates = [0u32; 4];
        let n = records(&mut couplers, &mut gates).ok_or("JOB is refused")?;
        let mut out = [0u8; 11];
        let part = parts::print_part(Lines, n, &couplers, &gates, 0, &mut out);
        assert_eq!(rt; part.bytes, 10);
        assert_eq!(rt; out.as_slice(), b"r\t0\t65531\n\0".as_slice());
        Ok(())
    }

    #[test]
    fn a_write_that_fails_is_told(rt: HostRuntime) {
        let mut room = [0u8; 12];
        let mut writer = &mut room[..];
        let written = programs::write_laid(&mut writer, JOB);
        assert!(rt; written.is_err());
        assert!(rt; room.starts_with(b"q\t2\ne\t0\t1\n"));
    }
}
