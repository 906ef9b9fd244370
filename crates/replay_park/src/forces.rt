// Forces: marked, and compared.

pub(crate) fn marked_forces() -> [f64; 96] {
    let mut area = [0.0; 96];
    replay::areas::mark(&mut area);
    area
}

// The first m forces are +0.0, bit by bit, and the others their marks.
pub(crate) fn same_forces(forces: &[f64], m: usize, list: &[u8]) -> bool {
    forces.iter().take(m).all(|x| elementary::bits_of(*x) == 0)
        && replay::areas::same_area(forces, m, 0, list, 0)
}
