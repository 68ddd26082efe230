// In how many places a row of words or bytes is not what another row has there.
pub fn apart<T: Copy + PartialEq>(units: &[T], others: &[T]) -> usize {
    let places = units.iter().enumerate();
    places
        .filter(|(at, unit)| others.get(*at) != Some(*unit))
        .count()
}
