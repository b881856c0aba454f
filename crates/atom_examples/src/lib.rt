// Examples of atoms at work.
#![tactic(auto)]

#[cfg(test)]
mod tests {
    use atoms::{Add, Atom, ReadWrite, Subtract};
    use choice::Choice;
    use lines::{Line, Source};
    use resolving::{Codelet, Decided, Packet, Update};
    use word::{Clamp, Wrap};

    // The two codelets are written out, since they have no line in common but the first.

    // The codelet of a counter that restarts at 0 after 9: if s0 = 9 then s0 := 0 else s0 := s0 + 1, in a transaction
    // that also sets a field in each branch.
    fn sampling() -> Codelet {
        let mut lines = [Line::Read(0); 208];
        let mut inner = [false; 208];
        lines[1] = Line::Equal(Source::Line(0), Source::Constant(9));
        lines[2] = Line::Copy(Source::Constant(1));
        lines[3] = Line::Choose(Source::Line(1), Source::Line(2), Source::Field(0));
        lines[4] = Line::Copy(Source::Constant(0));
        lines[5] = Line::Choose(Source::Line(1), Source::Line(4), Source::Line(0));
        lines[6] = Line::Copy(Source::Constant(0));
        lines[7] = Line::Choose(Source::Line(1), Source::Line(3), Source::Line(6));
        lines[8] = Line::Add(Source::Line(5), Source::Constant(1));
        lines[9] = Line::Choose(Source::Line(1), Source::Line(5), Source::Line(8));
        lines[10] = Line::Write(0, Source::Line(9));
        inner[1] = true;
        inner[5] = true;
        inner[8] = true;
        inner[9] = true;
        Codelet {
            lines,
            inner,
            read: 0,
        }
    }

    // s0 := s0 - 1
    fn countdown() -> Codelet {
        let mut lines = [Line::Read(0); 208];
        let mut inner = [false; 208];
        lines[1] = Line::Sub(Source::Line(0), Source::Constant(1));
        lines[2] = Line::Write(0, Source::Line(1));
        inner[1] = true;
        Codelet {
            lines,
            inner,
            read: 0,
        }
    }

    // The codelet's update to what line n makes, with no condition decided.
    fn update_to(codelet: &Codelet, n: u8) -> Update {
        Update {
            codelet,
            decided: Decided::none(),
            source: Source::Line(n),
        }
    }

    // A packet for which line 4, which stands outside the codelet, made 0.
    fn packet() -> Packet {
        Packet {
            fields: [7; 16],
            lines: [0; 208],
        }
    }

    #[test]
    fn sampling_needs_a_choice_over_add(rt: HostRuntime) {
        let codelet = sampling();
        let update = update_to(&codelet, 9);
        assert!(rt; !Add(Wrap).class(&update));
        assert!(rt; !Choice(ReadWrite(Wrap)).class(&update));
        assert!(rt; Choice(Add(Wrap)).class(&update));
    }

    #[test]
    fn sampling_counts_to_nine(rt: HostRuntime) {
        let atom = Choice(Add(Wrap));
        let mut setting = [0; 64];
        assert!(rt; atom.fit(&update_to(&sampling(), 9), &mut setting));
        assert_eq!(rt; atom.run(&setting, 3, &packet()), 4);
        assert_eq!(rt; atom.run(&setting, 9, &packet()), 0);
    }

    #[test]
    fn a_refusal_writes_nothing(rt: HostRuntime) {
        let mut setting = [5; 64];
        assert!(rt; !Choice(ReadWrite(Wrap)).fit(&update_to(&sampling(), 9), &mut setting));
        assert_eq!(rt; setting, [5; 64]);
    }

    #[test]
    fn four_choices_over_add_have_123_numbers(rt: HostRuntime) {
        assert_eq!(rt; Choice(Choice(Choice(Choice(Add(Wrap))))).length(), 123);
    }

    #[test]
    fn below_zero_under_wrap_and_clamp(rt: HostRuntime) {
        let codelet = countdown();
        let update = update_to(&codelet, 1);
        let mut setting = [0; 64];
        assert!(rt; Subtract(Wrap).fit(&update, &mut setting));
        assert_eq!(rt; Subtract(Wrap).run(&setting, 0, &packet()), 4_294_967_295);
        assert!(rt; Subtract(Clamp).fit(&update, &mut setting));
        assert_eq!(rt; Subtract(Clamp).run(&setting, 0, &packet()), 0);
    }
}
